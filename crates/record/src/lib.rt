// Document 01's record: one value that the main loop keeps and every step changes. N1 added the place in the
// circle, N2 the steps that an operation has made. Here are its types; `parts` makes records and reads and
// replaces their parts; `idle` says which party has no work.
#![tactic(auto)]

pub mod idle;
pub mod parts;

// The record. A call's parameter of this type is called `panel`, since the proof language reserves the
// word.
#[derive(Clone, Copy)]
pub struct Record {
    // the number of slots
    pub m: u32,
    // the number of functions, and so of positions of a point
    pub k: u32,
    // no lookup that begins now reads a position of a higher index
    pub reach: u32,
    // at i − 1: how many stored points use index i; those above k are no field
    pub counts: [u32; 64],
    pub writer: Writer,
    pub readers: [Reader; 16],
    // at n − 1: the last command of station n
    pub stations: [Station; 32],
    // the place in the circle, the party that a turn tries first: 0 the writer, n + 1 reader n
    pub place: u32,
}

// How far a search for a point is. Lookups and the writer's operations share it.
#[derive(Clone, Copy)]
pub enum Search {
    // the reach is still to be read
    Unread,
    Probing(Probe),
}

#[derive(Clone, Copy)]
pub struct Probe {
    // the reach as the search read it
    pub reach: u32,
    // the index of the position that is read next
    pub next: u32,
}

// Where a search found its point: the position's index, and the value read there.
#[derive(Clone, Copy)]
pub struct Place {
    pub index: u32,
    pub value: u32,
}

#[derive(Clone, Copy)]
pub struct Reader {
    pub work: ReaderWork,
}

#[derive(Clone, Copy)]
pub enum ReaderWork {
    Idle,
    LookingUp(Lookup),
    Walking(Walk),
}

#[derive(Clone, Copy)]
pub struct Lookup {
    pub point: u32,
    pub search: Search,
    // how many steps it has made
    pub steps: u32,
}

#[derive(Clone, Copy)]
pub struct Walk {
    // the slot that is read next
    pub next: u32,
}

#[derive(Clone, Copy)]
pub struct Writer {
    pub work: WriterWork,
}

#[derive(Clone, Copy)]
pub enum WriterWork {
    Idle,
    Putting(Put),
    Changing(Change),
    Removing(Removal),
}

#[derive(Clone, Copy)]
pub struct Put {
    pub point: u32,
    pub value: u32,
    pub stage: PutStage,
    // how many steps it has made
    pub steps: u32,
}

#[derive(Clone, Copy)]
pub enum PutStage {
    Searching(Search),
    // not found: the second search, by the index of the position that is read next
    Scanning(u32),
    // the point's place, where the new word is stored next
    Found(Place),
    // the index of the first empty position, which is taken next
    Chosen(u32),
}

#[derive(Clone, Copy)]
pub struct Change {
    pub point: u32,
    pub alteration: Alteration,
    pub stage: ChangeStage,
    // how many steps it has made
    pub steps: u32,
}

// What a change makes of the value.
#[derive(Clone, Copy)]
pub enum Alteration {
    Given(Masks),
    // a command's change, whose masks follow from its action
    Commanded(Command),
}

// (value AND keep) XOR flip
#[derive(Clone, Copy)]
pub struct Masks {
    pub keep: u32,
    pub flip: u32,
}

#[derive(Clone, Copy)]
pub struct Command {
    pub station: u32,
    pub number: u32,
    pub action: u32,
}

#[derive(Clone, Copy)]
pub enum ChangeStage {
    Searching(Search),
    Found(Place),
}

#[derive(Clone, Copy)]
pub struct Removal {
    pub point: u32,
    pub stage: RemovalStage,
    // how many steps it has made
    pub steps: u32,
}

#[derive(Clone, Copy)]
pub enum RemovalStage {
    Searching(Search),
    Found(Place),
    // the slot is emptied, and the reach is stored next
    Lowering,
}

// A station's last command with its answer; number 0 as long as it sent none.
#[derive(Clone, Copy)]
pub struct Station {
    pub number: u32,
    pub point: u32,
    pub action: u32,
    // the new value, or none for refusal 7
    pub answer: Option<u32>,
}
