// What can stand before a line, and what stands after it.
ghost use Rattle.std.specs.Prelude.{◌≡◌, ◌<◌};
ghost use Rattle.grammar.specs.Lines.{place, transition, pre, post, after, up_to, from_post};
ghost use Rattle.import.specs.scan.Kinds.{Sound};

use grammar::State;

// An arc's pair is below this: after 2,048 arcs there is only the Post of the pair in hand.
pub(crate) fn up_to(q: State) -> u32
    ensures { result ≡ up_to q }
{
    if q.arcs < 2048 { q.places } else { q.low }
}

pub(crate) fn from_post(q: State) -> u32
    requires { Sound q }
    ensures { result ≡ from_post q }
{
    if q.half { q.low - 1 } else { q.low }
}

pub(crate) fn after_place(q: State, n: u32) -> State
    requires { Sound q }
    ensures { result ≡ after q (place n) }
{
    State {
        places: q.places + 1,
        ..q
    }
}

pub(crate) fn after_mode(q: State) -> State
    requires { Sound q }
    ensures { result ≡ after q transition }
{
    State {
        modes: q.modes + 1,
        low: 0,
        half: false,
        ..q
    }
}

pub(crate) fn after_pre(q: State, p: u32, w: u32) -> State
    requires { Sound q × (p < 1000) }
    ensures { result ≡ after q (pre p w) }
{
    State {
        arcs: q.arcs + 1,
        low: p + 1,
        half: true,
        ..q
    }
}

// A Post line of the pair in hand is no new arc.
pub(crate) fn after_post(q: State, p: u32, w: u32) -> State
    requires { Sound q × (p < 1000) }
    ensures { result ≡ after q (post p w) }
{
    State {
        arcs: if p < q.low { q.arcs } else { q.arcs + 1 },
        low: p + 1,
        half: false,
        ..q
    }
}
