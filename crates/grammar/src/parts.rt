// The parts of a line of an export, read from a text in one pass: constant bytes, three digits, a number in decimal.
// Each answers where it ends, or the first byte (or the end) from which nothing that may stand there agrees.
pub mod constant;
pub mod decimal;
pub mod three;
pub mod valued;

// A number and the position after it, or where no number goes on so.
pub type Numbered = Result<(u32, usize), usize>;

// Constant text: the position after it, or where the text leaves it.
pub type Literal = Result<usize, usize>;
