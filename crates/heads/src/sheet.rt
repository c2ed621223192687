// A run of bytes that begins with a head: its length L is there, and at least the version follows it.
ghost use Rattle.heads.specs.Held.{Headed};

#[derive(Clone, Copy)]
pub struct Sheet<'a> {
    pub bytes: &'a [u8],
    pub ghost headed: { Headed bytes.now },
}
