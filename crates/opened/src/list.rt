// A movement sheet that was accepted.
ghost use Rattle.std.specs.Prelude.{◌≡◌};
ghost use Rattle.std.proofs.Math.Option.{none};
ghost use Rattle.sheets.specs.lists.Movements.{movements_refusal};

#[derive(Clone, Copy)]
pub struct MovementList<'a> {
    pub sheet: &'a [u8],
    pub ghost is_listed: { movements_refusal sheet.now ≡ none },
}
