// The frame reader.
ghost use Rattle.std.specs.Prelude.{◌≡◌};
ghost use Rattle.frame.specs.Answers.{paper_read};
ghost use Rattle.frame.specs.Frames.{read_frame};
ghost use Rattle.frame.specs.Layouts.{fields_at};

use crate::big_endian::number_at;
use crate::judge::judge;
use crate::layout::{Layout, layout_of};
use crate::{Fields, Frame};
use refusal::Refusal;

// The frame that a byte string is, or why it is none: 8 if empty, 9, 8, then its fields in bit order.
pub fn read(bytes: &[u8]) -> Result<Frame, Refusal>
    ensures { paper_read result ≡ read_frame bytes.now }
{
    let Some(&map) = bytes.first() else {
        return Err(Refusal::Length);
    };
    let (kind, layout) = layout_of(u32::from(map))?;
    if bytes.len() != layout.length as usize {
        return Err(Refusal::Length);
    }
    let fields = fields_at(bytes, layout);
    judge(layout, fields)?;
    Ok(Frame { kind, fields })
}

#[tactic(auto, unfolding(crate::specs::Layouts::fields_at))]
fn fields_at(bytes: &[u8], l: Layout) -> Fields
    ensures { result ≡ fields_at bytes.now l }
{
    Fields {
        station: number_at(bytes, l.station, 1),
        number: number_at(bytes, l.number, 3),
        point: number_at(bytes, l.point, 4),
        action: number_at(bytes, l.action, 1),
        value: number_at(bytes, l.value, 4),
        refusal: number_at(bytes, l.refusal, 1),
    }
}
