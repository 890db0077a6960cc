// What a map byte says: the kind of frame, its length, and where its fields begin.
ghost use Rattle.std.specs.Prelude.{◌≡◌};
ghost use Rattle.frame.specs.Layouts.{layout_of};

use crate::Kind;
use refusal::Refusal;

// A frame's length, and the places of its fields, 0 where the kind lacks one.
#[derive(Clone, Copy, Default)]
pub(crate) struct Layout {
    pub length: u32,
    pub station: u32,
    pub number: u32,
    pub point: u32,
    pub action: u32,
    pub value: u32,
    pub refusal: u32,
}

// The kind of frame that a map byte chooses, with its layout; every other value is refused.
#[tactic(auto, unfolding(crate::specs::FieldMap::has_bit, crate::specs::FieldMap::kind_of, crate::specs::FieldMap::start, crate::specs::Layouts::laid, crate::specs::Layouts::layout_of))]
pub(crate) fn layout_of(map: u32) -> Result<(Kind, Layout), Refusal>
    ensures { result ≡ layout_of map }
{
    let lacking = Layout::default();
    match map {
        0x04 => Ok((
            Kind::Query,
            Layout {
                length: 5,
                point: 1,
                ..lacking
            },
        )),
        0x0F => Ok((
            Kind::Command,
            Layout {
                length: 10,
                station: 1,
                number: 2,
                point: 5,
                action: 9,
                ..lacking
            },
        )),
        0x14 => Ok((
            Kind::Value,
            Layout {
                length: 9,
                point: 1,
                value: 5,
                ..lacking
            },
        )),
        0x17 => Ok((
            Kind::CommandAnswer,
            Layout {
                length: 13,
                station: 1,
                number: 2,
                point: 5,
                value: 9,
                ..lacking
            },
        )),
        0x24 => Ok((
            Kind::QueryRefused,
            Layout {
                length: 6,
                point: 1,
                refusal: 5,
                ..lacking
            },
        )),
        0x27 => Ok((
            Kind::CommandRefused,
            Layout {
                length: 10,
                station: 1,
                number: 2,
                point: 5,
                refusal: 9,
                ..lacking
            },
        )),
        _ => Err(Refusal::Map),
    }
}
