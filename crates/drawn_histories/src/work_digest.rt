// The work of the writer and of a reader in a digest.
use crate::digest::{Digest, Digested};
use record::{
    Alteration, Change, ChangeStage, Place, Put, PutStage, ReaderWork, Removal, RemovalStage,
    Search, WriterWork,
};

impl Digested for ReaderWork {
    fn add_to(self, digest: &mut Digest) {
        match self {
            ReaderWork::Idle => digest.add(0),
            ReaderWork::LookingUp(lookup) => {
                digest.add_all(&[1, lookup.point]);
                lookup.search.add_to(digest);
                digest.add(lookup.steps);
            }
            ReaderWork::Walking(walk) => digest.add_all(&[2, walk.next]),
        }
    }
}

impl Digested for WriterWork {
    fn add_to(self, digest: &mut Digest) {
        match self {
            WriterWork::Idle => digest.add(0),
            WriterWork::Putting(put) => {
                digest.add(1);
                put.add_to(digest);
            }
            WriterWork::Changing(change) => {
                digest.add(2);
                change.add_to(digest);
            }
            WriterWork::Removing(removal) => {
                digest.add(3);
                removal.add_to(digest);
            }
        }
    }
}

impl Digested for Search {
    fn add_to(self, digest: &mut Digest) {
        match self {
            Search::Unread => digest.add(0),
            Search::Probing(probe) => digest.add_all(&[1, probe.reach, probe.next]),
        }
    }
}

impl Digested for Place {
    fn add_to(self, digest: &mut Digest) {
        digest.add_all(&[self.index, self.value]);
    }
}

impl Digested for Put {
    fn add_to(self, digest: &mut Digest) {
        digest.add_all(&[self.point, self.value]);
        self.stage.add_to(digest);
        digest.add(self.steps);
    }
}

impl Digested for PutStage {
    fn add_to(self, digest: &mut Digest) {
        match self {
            PutStage::Searching(search) => {
                digest.add(0);
                search.add_to(digest);
            }
            PutStage::Scanning(next) => digest.add_all(&[1, next]),
            PutStage::Found(place) => {
                digest.add(2);
                place.add_to(digest);
            }
            PutStage::Chosen(index) => digest.add_all(&[3, index]),
        }
    }
}

impl Digested for Change {
    fn add_to(self, digest: &mut Digest) {
        digest.add(self.point);
        self.alteration.add_to(digest);
        self.stage.add_to(digest);
        digest.add(self.steps);
    }
}

impl Digested for Alteration {
    fn add_to(self, digest: &mut Digest) {
        match self {
            Alteration::Given(masks) => digest.add_all(&[0, masks.keep, masks.flip]),
            Alteration::Commanded(command) => {
                digest.add_all(&[1, command.station, command.number, command.action]);
            }
        }
    }
}

impl Digested for ChangeStage {
    fn add_to(self, digest: &mut Digest) {
        match self {
            ChangeStage::Searching(search) => {
                digest.add(0);
                search.add_to(digest);
            }
            ChangeStage::Found(place) => {
                digest.add(1);
                place.add_to(digest);
            }
        }
    }
}

impl Digested for Removal {
    fn add_to(self, digest: &mut Digest) {
        digest.add(self.point);
        self.stage.add_to(digest);
        digest.add(self.steps);
    }
}

impl Digested for RemovalStage {
    fn add_to(self, digest: &mut Digest) {
        match self {
            RemovalStage::Searching(search) => {
                digest.add(0);
                search.add_to(digest);
            }
            RemovalStage::Found(place) => {
                digest.add(1);
                place.add_to(digest);
            }
            RemovalStage::Lowering => digest.add(2),
        }
    }
}
