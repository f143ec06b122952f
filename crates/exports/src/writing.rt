// Writing a bank: 13 for entries that make none, 14 for a buffer that is too short.
ghost use Rattle.std.specs.Prelude.{◌≡◌, length};
ghost use Rattle.exports_parts.specs.Told.{Answers};
ghost use Rattle.exports.specs.Writing.{bank_from, bank_told};

use exports_parts::give;

// The entries in their bytes, thirteen each, with their payloads end to end, as a bank at the front of `out`; and its length.
#[unsafe(no_mangle)]
pub extern "C" fn birchjack_write_bank(
    header: &[u8; 10],
    entries: &[u8],
    payloads: &[u8],
    out: &mut [u8],
    len: &mut usize,
) -> u8
    ensures { Answers (bank_told out.old (bank_from header.now entries.now payloads.now (length out.old))) (out.old, len.old) result (out.new, len.new) }
{
    let given = bank_writer::entries_from(entries);
    let count = entries.len() / bank_writer::GIVEN_SIZE;
    let written = bank_writer::write_bank(*header, given, count, payloads, out);
    give(written, len)
}
