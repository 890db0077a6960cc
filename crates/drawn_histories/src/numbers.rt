// The generator of document 01, by which calls are drawn.
ghost use Rattle.std.specs.Prelude.{◌≡◌};
ghost use Rattle.hash.specs.Position.{next_of};

use hash::next;

// The five numbers that a call is drawn by, in their order.
#[derive(Clone, Copy)]
pub(crate) struct Draws {
    pub(crate) which: u32,
    pub(crate) party: u32,
    pub(crate) address: u32,
    pub(crate) content: u32,
    pub(crate) rest: u32,
}

// The next five values.
pub(crate) fn draw(drawn: u32) -> Draws
    ensures first { result.which ≡ next_of drawn }
    ensures second { result.party ≡ next_of result.which }
    ensures third { result.address ≡ next_of result.party }
    ensures fourth { result.content ≡ next_of result.address }
    ensures last { result.rest ≡ next_of result.content }
{
    let which = next(drawn);
    let party = next(which);
    let address = next(party);
    let content = next(address);
    let rest = next(content);
    Draws {
        which,
        party,
        address,
        content,
        rest,
    }
}

// A drawn number's upper digits, which are not those of its remainders.
pub(crate) fn upper(drawn: u32) -> u32 {
    drawn / 65536
}

// A number of 32 bits from two drawn ones.
pub(crate) fn joined(high: u32, low: u32) -> u32 {
    high % 65536 * 65536 + low % 65536
}
