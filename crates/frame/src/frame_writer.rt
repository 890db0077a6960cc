// The frame writer.
ghost use Rattle.std.specs.Prelude.{◌≡◌};
ghost use Rattle.frame.specs.Answers.{paper_write};
ghost use Rattle.frame.specs.Frames.{write_frame};
ghost use Rattle.frame.specs.Layouts.{put_fields};

use crate::Fields;
use crate::big_endian::{put_byte, put_number};
use crate::judge::judge;
use crate::layout::{Layout, layout_of};
use refusal::Refusal;

// Writes a frame to the start of a buffer, and gives its length; or says why not: 9, the fields in
// bit order, 14.
pub fn write(out: &mut [u8], map: u32, f: Fields) -> Result<u32, Refusal>
    ensures { paper_write result out.new ≡ write_frame map f out.old }
{
    let (kind, layout) = layout_of(map)?;
    judge(layout, f)?;
    if out.len() < layout.length as usize {
        return Err(Refusal::Short);
    }
    put_byte(out, 0, kind.map());
    put_fields(out, layout, f);
    Ok(layout.length)
}

#[tactic(auto, unfolding(crate::specs::Layouts::put, crate::specs::Layouts::put_fields))]
fn put_fields(out: &mut [u8], l: Layout, f: Fields)
    ensures { out.new ≡ put_fields l f out.old }
{
    put_number(out, l.station, 1, f.station);
    put_number(out, l.number, 3, f.number);
    put_number(out, l.point, 4, f.point);
    put_number(out, l.action, 1, f.action);
    put_number(out, l.value, 4, f.value);
    put_number(out, l.refusal, 1, f.refusal);
}
