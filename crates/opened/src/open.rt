// A net sheet that was accepted, beside where its parts stand.
ghost use Rattle.std.specs.Prelude.{ℕ, ◌<◌};
ghost use Rattle.heads.specs.Bytes.{byte_at};
ghost use Rattle.opened.specs.Shape.{Open};

use crate::shape::NetShape;

#[derive(Clone, Copy)]
pub struct OpenNet<'a> {
    pub sheet: &'a [u8],
    pub shape: NetShape,
    pub ghost is_open: { Open sheet.now shape },
    pub ghost are_bytes: { (i : ℕ) → byte_at sheet.now i < 256 },
}
