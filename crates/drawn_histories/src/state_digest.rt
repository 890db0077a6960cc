// The record in a digest, field by field.
use crate::digest::{Digest, Digested};
use record::{Reader, Record, Station};

impl Digested for Record {
    fn add_to(self, digest: &mut Digest) {
        digest.add_all(&[self.m, self.k, self.reach, self.place]);
        digest.add_all(&self.counts);
        self.writer.work.add_to(digest);
        add_each(&self.readers, digest);
        add_each(&self.stations, digest);
    }
}

fn add_each<T: Digested + Copy>(parts: &[T], digest: &mut Digest) {
    for part in parts {
        part.add_to(digest);
    }
}

impl Digested for Reader {
    fn add_to(self, digest: &mut Digest) {
        self.work.add_to(digest);
    }
}

impl Digested for Station {
    fn add_to(self, digest: &mut Digest) {
        digest.add_all(&[self.number, self.point, self.action]);
        self.answer.add_to(digest);
    }
}
