// A reader over the bytes of a sheet that the caller lends. It cuts one record at a time, and knows its place.
ghost use Rattle.std.specs.Prelude.{◌≡◌, ◌+◌, ◌≤◌, length, drop};
ghost use Rattle.records.specs.Cutting.{cut, moved};
ghost use Rattle.records.specs.Kinds.{CutBehind};
ghost use Rattle.records.specs.Inverse.{Reads};

use crate::faults::{Cause, Fault};
use crate::kinds::Record;
use crate::layouts::Kind;

#[derive(Debug, Drop)]
pub struct Reader<'a> {
    bytes: &'a [u8],
    at: usize,
    ghost inside: { at ≤ length bytes.now },
}

impl<'a> Reader<'a> {
    pub fn new(bytes: &'a [u8]) -> Self
        ensures lends { result.bytes.now ≡ bytes.now }
        ensures start { result.at ≡ 0 }
    {
        Reader { bytes, at: 0 }
    }

    // The offset of the record that comes next.
    pub fn place(&self) -> usize
        ensures { result ≡ self.now.at }
    {
        self.at
    }

    // The record at the reader's place, or None at the end of the bytes. The reader then stands behind the record; where
    // there is none, or a faulty one, it stays. Not the `next` of an iterator: with a Result of an Option a loop leaves
    // at a fault by ?, and a fault is answered again by each call.
    pub fn next(&mut self) -> Result<Option<Record>, Fault>
        ensures answer { result ≡ cut (drop self.old.at self.old.bytes.now) self.old.at }
        ensures reads { Reads (drop self.old.at self.old.bytes.now) result }
        ensures moves { self.new.at ≡ self.old.at + moved result }
        ensures keeps { self.new.bytes.now ≡ self.old.bytes.now }
    {
        let next = cut_at(self.bytes, self.at)?;
        if let Some(record) = &next {
            self.at += record.size();
        }
        Ok(next)
    }
}

// What stands at `place`: the record whose writing the bytes from there on begin with, and no other.
fn cut_at(bytes: &[u8], place: usize) -> Result<Option<Record>, Fault>
    requires { place ≤ length bytes.now }
    ensures answer { result ≡ cut (drop place bytes.now) place }
    ensures reads { Reads (drop place bytes.now) result }
    ensures fits { place + moved result ≤ length bytes.now }
{
    cut_front(&bytes[place..], place)
}

// What stands at the front of `rest`, which begins at `place`.
fn cut_front(rest: &[u8], place: usize) -> Result<Option<Record>, Fault>
    ensures { result ≡ cut rest.now place }
{
    let [byte, fields @ ..] = rest else {
        return Ok(None);
    };
    let record = cut_kind(*byte, fields).map_err(|cause| Fault { cause, place })?;
    Ok(Some(record))
}

// The record with this kind byte, and with the fields that the bytes behind it begin with.
fn cut_kind(byte: u8, fields: &[u8]) -> Result<Record, Cause>
    ensures { CutBehind byte fields.now result }
{
    Kind::try_from(byte)?.record(fields)
}
