//! Record sets written: a record for each of their data, with the owner and the TTL of the set.
ghost use Rattle.std.specs.Prelude.{◌≤◌, OnOk, flat_map};
ghost use Rattle.std.specs.List.{AllByRecursion};
ghost use Rattle.rdata.specs.Records.{greatest_ttl};
ghost use Rattle.rdata.specs.Rows.{plain_rows};
ghost use Rattle.message_grammar.specs.Messages.{record_pieces, IsRecord};
ghost use Rattle.wire.specs.Puts.{Puts};

use crate::writer::Writer;
use dname::Name;
use memory::{Heap, Starved};
use rdata::{RecordSet, Values};

impl<A: Heap> Writer<A> {
    fn put_rows(
        &mut self,
        owner: &Name<A>,
        ttl: u32,
        values: &Values<A>,
        limit: usize,
    ) -> Result<(), Starved>
        requires { ttl ≤ greatest_ttl }
        ensures { OnOk result (Puts limit (AllByRecursion IsRecord (plain_rows owner.now ttl values.now)) (flat_map record_pieces (plain_rows owner.now ttl values.now)) self.old self.new) }
    {
        for index in 0..values.len() {
            if self.is_over(limit) {
                return Ok(());
            }
            self.put_row(owner, ttl, values.get(index))?;
        }
        Ok(())
    }

    // Writes the records of a set in order, until the message is over the limit, as `put_records` does.
    pub(crate) fn put_set(&mut self, set: &RecordSet<A>, limit: usize) -> Result<(), Starved>
        ensures { OnOk result (Puts limit (AllByRecursion IsRecord set.now) (flat_map record_pieces set.now) self.old self.new) }
    {
        self.put_rows(&set.owner, set.ttl, &set.values, limit)
    }
}
