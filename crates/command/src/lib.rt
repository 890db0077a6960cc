// The command entry: a station's command, as the bytes of its frame, starts its change, is answered
// again, or is refused.
#![tactic(auto)]

ghost use Rattle.std.specs.Prelude.{ℕ, List, ◌≡◌};
ghost use Rattle.record.specs.Parts.{with_writer};
ghost use Rattle.answers.specs.Answers.{paper_entry, outcome};
ghost use Rattle.command.specs.Command.{sent_of, commanded_change, in_turn, start_command};
ghost use Rattle.command.specs.CommandFrames.{paper_received, received_from, left_by};

use answers::{Entered, Outcome};
use conditions::both_hold;
use frame::{Fields, read};
use record::idle::is_writer_idle;
use record::parts::{station_of, with_writer};
use record::{Alteration, Change, ChangeStage, Command, Record, Search, Station, WriterWork};
use record_ranges::is_in_range;
use refusal::Refusal;

// Document 01's command: station, number, point and action.
#[derive(Clone, Copy)]
pub struct Sent {
    pub station: u32,
    pub number: u32,
    pub point: u32,
    pub action: u32,
}

// Those of a frame's fields that a command has.
impl From<Fields> for Sent {
    ghost from_gives = { λ fields sent. sent ≡ sent_of fields };

    fn from(fields: Fields) -> Self {
        Sent {
            station: fields.station,
            number: fields.number,
            point: fields.point,
            action: fields.action,
        }
    }
}

// What a command that is not refused comes to.
#[derive(Clone, Copy)]
enum Taken {
    // its change starts
    Started(Sent),
    // it is the station's last command again: that one's answer
    GivenAgain(Option<u32>),
}

// The command that the bytes are. The map is judged before the length: another frame gets 9 at any
// length.
fn receive_command(bytes: &[u8]) -> Result<Sent, Refusal>
    ensures { paper_received result ≡ received_from bytes.now }
{
    let Some(&map) = bytes.first() else {
        return Err(Refusal::Length);
    };
    if map != 0x0F {
        return Err(Refusal::Map);
    }
    Ok(Sent::from(read(bytes)?.fields))
}

// A command beside the last one of its station. On a record out of range the last number may be the
// largest u32, so the one after it is a u64.
fn judge_turn(panel: Record, sent: Sent, last: Station) -> Result<Taken, Refusal>
    ensures { (slots : List ℕ) → left_by panel slots result ≡ in_turn panel slots sent last }
{
    if sent.number == last.number {
        return if both_hold(sent.point == last.point, sent.action == last.action) {
            Ok(Taken::GivenAgain(last.answer))
        } else {
            Err(Refusal::Altered)
        };
    }
    let next = u64::from(last.number) + 1;
    if u64::from(sent.number) != next {
        return Err(Refusal::Turn);
    }
    if !is_writer_idle(panel.writer.work) {
        return Err(Refusal::Engaged);
    }
    Ok(Taken::Started(sent))
}

// Document 01's order: 1, frame, 11 or 12 or the stored answer, 4.
fn take_command(panel: Record, slots: &[u64], bytes: &[u8]) -> Result<Taken, Refusal>
    ensures { left_by panel slots.now result ≡ start_command panel slots.now bytes.now }
{
    if !is_in_range(panel, slots.len()) {
        return Err(Refusal::Misfit);
    }
    let sent = receive_command(bytes)?;
    judge_turn(panel, sent, station_of(panel, sent.station))
}

// The record with the command's change underway. The station's last command stays: the step that ends
// the change replaces it.
fn with_change(panel: Record, sent: Sent) -> Record
    ensures { result ≡ with_writer panel (commanded_change sent) }
{
    let command = Command {
        station: sent.station,
        number: sent.number,
        action: sent.action,
    };
    let change = Change {
        point: sent.point,
        alteration: Alteration::Commanded(command),
        stage: ChangeStage::Searching(Search::Unread),
        steps: 0,
    };
    with_writer(panel, WriterWork::Changing(change))
}

// Takes a station's command.
pub fn start_command(panel: Record, slots: &[u64], bytes: &[u8]) -> Outcome<Entered>
    ensures { outcome result.panel slots.now (paper_entry result.answer) ≡ start_command panel slots.now bytes.now }
{
    match take_command(panel, slots, bytes) {
        Ok(Taken::Started(sent)) => Outcome {
            panel: with_change(panel, sent),
            answer: Ok(Entered::Started),
        },
        Ok(Taken::GivenAgain(answer)) => Outcome {
            panel,
            answer: Ok(Entered::GivenAgain { answer, steps: 0 }),
        },
        Err(refusal) => Outcome {
            panel,
            answer: Err(refusal),
        },
    }
}
