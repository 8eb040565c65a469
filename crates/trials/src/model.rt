// The records that a pool should hold, as a plain list.
use arrayvec::ArrayVec;
use change::{Outcome, Request};

#[derive(Drop, Default)]
pub struct Model {
    records: ArrayVec<(u64, u64), 1024>,
}

impl Model {
    // The value of a key.
    fn value(&self, key: u64) -> Option<u64> {
        self.records
            .iter()
            .find(|record| record.0 == key)
            .map(|record| record.1)
    }

    // What a request should be answered.
    pub fn expected(&self, request: Request) -> Outcome {
        match request {
            Request::Put(key, _) => self.value(key).map_or(Outcome::New, |_| Outcome::Replaced),
            Request::Fetch(key) => self.value(key).map_or(Outcome::Absent, Outcome::Found),
            Request::Delete(key) => self
                .value(key)
                .map_or(Outcome::Absent, |_| Outcome::Removed),
        }
    }

    // A new record that finds the list full is left out.
    fn put(&mut self, key: u64, value: u64) {
        if let Some(record) = self.records.iter_mut().find(|record| record.0 == key) {
            record.1 = value;
        } else {
            let _ = self.records.try_push((key, value));
        }
    }

    // The request is carried out on the list.
    pub fn apply(&mut self, request: Request) {
        match request {
            Request::Put(key, value) => self.put(key, value),
            Request::Fetch(_) => {}
            Request::Delete(key) => self.records.retain(|record| record.0 != key),
        }
    }
}
