// A caller of the journal who writes and reads, or reads and writes: what went in comes out.
#![tactic(auto)]

ghost use Rattle.std.specs.Prelude.{◌≡◌};
ghost use Rattle.definitions.specs.General.{pick};
ghost use Rattle.round_trip.specs.Calls.{both_written, both_read};

// Writes the records to `out` and reads them from there to `back`. Where both are taken, `back` holds the records.
pub fn write_then_read(records: &[u8], out: &mut [u8], back: &mut [u8]) -> bool
    ensures answer { result ≡ both_written records.now out.old back.old }
    ensures bytes { back.new ≡ pick result records.now back.old }
{
    journal::write(records, out).is_ok() && journal::read(out, back).is_ok()
}

// Reads the journal to `back` and writes it from there to `out`. Where both are taken, `out` holds the journal.
pub fn read_then_write(journal: &[u8], back: &mut [u8], out: &mut [u8]) -> bool
    ensures answer { result ≡ both_read journal.now back.old out.old }
    ensures bytes { out.new ≡ pick result journal.now out.old }
{
    journal::read(journal, back).is_ok() && journal::write(back, out).is_ok()
}
