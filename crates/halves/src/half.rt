// Each part of the complement's sheet, its places, its pairs and each mode's arcs, is the original's half and then the half that is new.
#[derive(Clone, Copy)]
pub enum Half {
    Original,
    Complement,
}
