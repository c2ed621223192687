// The sums of a step in three tables, with an entry for each pair that a net may have.
ghost use Rattle.fire.specs.step.Tabled.{Tabled};

#[derive(Drop)]
pub struct Sums {
    pub pre: [u32; 256],
    pub post: [u32; 256],
    pub low: [u32; 256],
    pub ghost is_tabled: { Tabled pre post low },
}
