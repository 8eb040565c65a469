// Rows of keys, and the requests of parts of rows.
use change::Request;

#[derive(Clone, Copy)]
pub enum Row {
    Rising,
    Falling,
    Ends,
    Scattered,
    Limits,
    Low,
}

impl Row {
    // The key of place i, of a thousand.
    fn key(self, i: u64) -> u64 {
        let j = i % 1000;
        let odd = j % 2 == 1;
        match self {
            Row::Rising => 10 * j + 10,
            Row::Falling => 10000 - 10 * j,
            Row::Ends if odd => 20000 - 10 * j,
            Row::Ends => 10 * j,
            Row::Scattered => j * 7919 % 10007,
            Row::Limits if odd => j,
            Row::Limits => u64::MAX - j,
            Row::Low => 5,
        }
    }
}

#[derive(Clone, Copy)]
enum Kind {
    Put,
    Fetch,
    Delete,
}

// The requests of a row from one place up to another.
#[derive(Clone, Copy)]
pub struct Part {
    kind: Kind,
    row: Row,
    pub from: u64,
    pub to: u64,
}

impl Part {
    pub fn put(row: Row, from: u64, to: u64) -> Part {
        Part {
            kind: Kind::Put,
            row,
            from,
            to,
        }
    }

    pub fn fetch(row: Row, from: u64, to: u64) -> Part {
        Part {
            kind: Kind::Fetch,
            row,
            from,
            to,
        }
    }

    pub fn delete(row: Row, from: u64, to: u64) -> Part {
        Part {
            kind: Kind::Delete,
            row,
            from,
            to,
        }
    }

    // The request at place i.
    pub fn request(self, i: u64) -> Request {
        let key = self.row.key(i);
        match self.kind {
            Kind::Put => Request::Put(key, key ^ i),
            Kind::Fetch => Request::Fetch(key),
            Kind::Delete => Request::Delete(key),
        }
    }
}
