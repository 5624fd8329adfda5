// What other languages call, as a library: tarpaulark_c exports each function under its own name. Numbers and bytes go in; the
// answer is 0 or the number of the refusal, with the rest of it in a lent array of fixed length. include/tarpaulark.h says the
// same for C.
#![tactic(auto)]

ghost use Rattle.std.specs.Prelude.{◌≡◌, [], ◌∷◌, length};
ghost use Rattle.rules.specs.First.{first};
ghost use Rattle.rules.specs.Answer.{number_of};
ghost use Rattle.boot_rules.specs.Tests as boot;
ghost use Rattle.boot_launch_rules.specs.Tests as launch;
ghost use Rattle.sparse_rules.specs.Header.{header_of, header_tests};
ghost use Rattle.sparse_rules.specs.Answers.{answer};
ghost use Rattle.sparse_store_rules.specs.Answers.{cut_answer};
ghost use Rattle.sparse_store_rules.specs.Store.{store, store_up_to};
ghost use Rattle.sparse_stream_rules.specs.States.{begun};
ghost use Rattle.sparse_stream_rules.specs.Passes.{judge_call, store_call, store_leaves, judge_at_end, store_at_end};
ghost use Rattle.sparse_stream_bytes.specs.Layout.{pass_of};
ghost use Rattle.tarpaulark_passes.specs.Handed.{Held, Handed, HandedAnswer};
ghost use Rattle.sparse_write_rules.specs.Write as writer;
ghost use Rattle.sparse_blocks_rules.specs.Pairs.{refused_image};
ghost use Rattle.sparse_diff_rules.specs.Diff as diff;
ghost use Rattle.sparse_join_rules.specs.Join as joiner;
ghost use Rattle.tarpaulark_numbers.specs.Numbers.{verdict_numbers, count_numbers, pair_numbers, chunk_in, chunk_numbers, header_numbers_by, layout_numbers};
ghost use Rattle.slot_on_bytes.specs.OnBytes.{on_bytes, fresh_bytes, bytes_refusal, bytes_startable};
ghost use Rattle.tarpaulark_starter.specs.OnBytes.{start_bytes};
ghost use Rattle.report_rules.specs.Reports.{added, counted};
ghost use Rattle.tarpaulark_report.specs.Numbers.{report_numbers, report_in};

use slot_bytes::RECORD;
use slot_rules::Op;
use tarpaulark_report::REPORT;

// Judges an image for a partition of so many bytes. Answers place, then blocks written, don't care, unknown.
pub fn tarpaulark_judge(image: &[u8], partition_len: u64, out: &mut [u64; 4]) -> u32
    ensures { (result ≡ number_of (answer image.now (length image.now) partition_len))
        × (out.new ≡ verdict_numbers (answer image.now (length image.now) partition_len)) }
{
    tarpaulark_images::judge(image, partition_len, out)
}

// Reads the file header of an image, for a partition of so many bytes. Answers block size, total
// blocks, total chunks, checksum, file header size, chunk header size; all 0 for a refusal.
pub fn tarpaulark_header(image: &[u8], partition_len: u64, out: &mut [u64; 6]) -> u32
    ensures { (result ≡ first (header_tests image.now (length image.now) partition_len))
        × (out.new ≡ header_numbers_by result (header_of image.now)) }
{
    tarpaulark_images::header(image, partition_len, out)
}

// Reads the chunk at an offset of an image, whose first block is given, by the image's own header.
// Answers place, kind, blocks, the offset of its data, the next chunk's offset and first block.
pub fn tarpaulark_chunk(image: &[u8], at: u64, first: u32, out: &mut [u64; 6]) -> u32
    ensures { (result ≡ number_of (chunk_in image.now at first))
        × (out.new ≡ chunk_numbers (chunk_in image.now at first)) }
{
    tarpaulark_images::chunk(image, at, first, out)
}

// Stores an image on a partition. Answers as the judge does.
pub fn tarpaulark_store(image: &[u8], partition: &mut [u8], out: &mut [u64; 4]) -> u32
    ensures { (result ≡ number_of (answer image.now (length image.now) (length partition.old)))
        × (out.new ≡ verdict_numbers (answer image.now (length image.now) (length partition.old)))
        × (partition.new ≡ store image.now partition.old) }
{
    tarpaulark_images::store(image, partition, out)
}

// Stores an image up to a limit of stored blocks. Answers place, blocks stored.
pub fn tarpaulark_store_limited(
    image: &[u8],
    partition: &mut [u8],
    limit: u64,
    out: &mut [u64; 2],
) -> u32
    ensures { (result ≡ number_of (cut_answer limit image.now (length partition.old)))
        × (out.new ≡ count_numbers (cut_answer limit image.now (length partition.old)))
        × (partition.new ≡ store_up_to limit image.now partition.old) }
{
    tarpaulark_images::store_limited(image, partition, limit, out)
}

// Writes the sparse image of flat bytes. Answers place, which is 0, and the image's length.
pub fn tarpaulark_write(flat: &[u8], block_size: u32, image: &mut [u8], out: &mut [u64; 2]) -> u32
    ensures { (result ≡ number_of (writer.answer flat.now block_size (length image.old)))
        × (out.new ≡ count_numbers (writer.answer flat.now block_size (length image.old)))
        × (image.new ≡ writer.output flat.now block_size image.old) }
{
    tarpaulark_images::write(flat, block_size, image, out)
}

// Lists what changed from one image to another, runs of three numbers each. Answers place, the image that a refusal is of,
// how many runs.
pub fn tarpaulark_compare(first: &[u8], second: &[u8], runs: &mut [u32], out: &mut [u64; 3]) -> u32
    ensures { (result ≡ number_of (diff.answer first.now second.now (length runs.old)))
        × (out.new ≡ pair_numbers (refused_image first.now second.now)
        (diff.answer first.now second.now (length runs.old)))
        × (runs.new ≡ diff.listed first.now second.now runs.old) }
{
    tarpaulark_pairs::compare(first, second, runs, out)
}

// Makes one image of two that has the effect of the first followed by the second. Answers place, the image that a refusal is
// of, the image's length.
pub fn tarpaulark_join(first: &[u8], second: &[u8], image: &mut [u8], out: &mut [u64; 3]) -> u32
    ensures { (result ≡ number_of (joiner.answer first.now second.now (length image.old)))
        × (out.new ≡ pair_numbers (refused_image first.now second.now)
        (joiner.answer first.now second.now (length image.old)))
        × (image.new ≡ joiner.output first.now second.now image.old) }
{
    tarpaulark_pairs::join(first, second, image, out)
}

// Begins a pass over an image of so many bytes that arrives in pieces, for a partition of so many bytes.
pub fn tarpaulark_pass_begin(length: u64, partition_len: u64, pass: &mut [u8; 112])
    ensures { Held (begun length partition_len) pass.new }
{
    tarpaulark_passes::begin(length, partition_len, pass);
}

// A piece for the judging pass. Answers place.
pub fn tarpaulark_pass_judge_piece(pass: &mut [u8; 112], piece: &[u8], out: &mut [u64; 1]) -> u32
    ensures { Handed (judge_call (pass_of pass.old) piece.now) result out.new pass.new }
{
    tarpaulark_passes::judge_piece(pass, piece, out)
}

// Finishes the judging pass. Answers as the judge does.
pub fn tarpaulark_pass_judge_finish(pass: &mut [u8; 112], out: &mut [u64; 4]) -> u32
    ensures { HandedAnswer (judge_at_end (pass_of pass.old)) result out.new pass.new }
{
    tarpaulark_passes::judge_finish(pass, out)
}

// A piece for the storing pass, which is lent the partition. Answers place.
pub fn tarpaulark_pass_store_piece(
    pass: &mut [u8; 112],
    piece: &[u8],
    partition: &mut [u8],
    out: &mut [u64; 1],
) -> u32
    ensures { Handed (store_call (pass_of pass.old) (length partition.old) piece.now) result out.new pass.new
        × (partition.new ≡ store_leaves (pass_of pass.old) piece.now partition.old) }
{
    tarpaulark_passes::store_piece(pass, piece, partition, out)
}

// Finishes the storing pass, which is lent the partition once more. Answers as the judge does.
pub fn tarpaulark_pass_store_finish(
    pass: &mut [u8; 112],
    partition: &[u8],
    out: &mut [u64; 4],
) -> u32
    ensures { HandedAnswer (store_at_end (pass_of pass.old) (length partition.now)) result out.new pass.new }
{
    tarpaulark_passes::store_finish(pass, partition, out)
}

// Finds the sections of a boot image. Answers the version, then for kernel, ramdisk, recovery, dtb and signature whether
// it is present, its position and its size, then whether a retired section is present.
pub fn tarpaulark_locate(image: &[u8], out: &mut [u64; 17]) -> u32
    ensures { (result ≡ number_of (boot.answer image.now))
        × (out.new ≡ layout_numbers (boot.answer image.now)) }
{
    tarpaulark_boot::locate(image, out)
}

// Finds the sections of a boot image for a board launched with a release, by its kernel, 0 plain and 1 generic. Answers as
// the finder of sections does.
pub fn tarpaulark_locate_for(image: &[u8], release: u32, kernel: u32, out: &mut [u64; 17]) -> u32
    ensures { (result ≡ number_of (launch.answer release kernel image.now))
        × (out.new ≡ layout_numbers (launch.answer release kernel image.now)) }
{
    tarpaulark_boot::locate_for(image, release, kernel, out)
}

// Makes a fresh slot record. Answers kind and started slot, as each slot operation does; a refusal leaves the bytes.
pub fn tarpaulark_slots_fresh(slots: u32, bytes: &mut [u8; RECORD], out: &mut [u64; 2]) -> u32
    ensures { (result ≡ (fresh_bytes slots bytes.old).number)
        × (out.new ≡ (fresh_bytes slots bytes.old).answer)
        × (bytes.new ≡ (fresh_bytes slots bytes.old).bytes) }
{
    tarpaulark_slots::fresh(slots, bytes, out)
}

// Start.
pub fn tarpaulark_slots_start(bytes: &mut [u8; RECORD], out: &mut [u64; 2]) -> u32
    ensures { (result ≡ (on_bytes Op.Start bytes.old).number)
        × (out.new ≡ (on_bytes Op.Start bytes.old).answer)
        × (bytes.new ≡ (on_bytes Op.Start bytes.old).bytes) }
{
    tarpaulark_slots::start(bytes, out)
}

// Set active.
pub fn tarpaulark_slots_set_active(bytes: &mut [u8; RECORD], slot: u32, out: &mut [u64; 2]) -> u32
    ensures { (result ≡ (on_bytes (Op.SetActive slot) bytes.old).number)
        × (out.new ≡ (on_bytes (Op.SetActive slot) bytes.old).answer)
        × (bytes.new ≡ (on_bytes (Op.SetActive slot) bytes.old).bytes) }
{
    tarpaulark_slots::set_active(bytes, slot, out)
}

// Partition modified.
pub fn tarpaulark_slots_modified(bytes: &mut [u8; RECORD], slot: u32, out: &mut [u64; 2]) -> u32
    ensures { (result ≡ (on_bytes (Op.Modified slot) bytes.old).number)
        × (out.new ≡ (on_bytes (Op.Modified slot) bytes.old).answer)
        × (bytes.new ≡ (on_bytes (Op.Modified slot) bytes.old).bytes) }
{
    tarpaulark_slots::modified(bytes, slot, out)
}

// Corrupted: the slot's system was found damaged.
pub fn tarpaulark_slots_corrupted(bytes: &mut [u8; RECORD], slot: u32, out: &mut [u64; 2]) -> u32
    ensures { (result ≡ (on_bytes (Op.Corrupted slot) bytes.old).number)
        × (out.new ≡ (on_bytes (Op.Corrupted slot) bytes.old).answer)
        × (bytes.new ≡ (on_bytes (Op.Corrupted slot) bytes.old).bytes) }
{
    tarpaulark_slots::corrupted(bytes, slot, out)
}

// Confirm. The system calls this, never the loader.
pub fn tarpaulark_slots_confirm(bytes: &mut [u8; RECORD], out: &mut [u64; 2]) -> u32
    ensures { (result ≡ (on_bytes Op.Confirm bytes.old).number)
        × (out.new ≡ (on_bytes Op.Confirm bytes.old).answer)
        × (bytes.new ≡ (on_bytes Op.Confirm bytes.old).bytes) }
{
    tarpaulark_slots::confirm(bytes, out)
}

// Whether bytes are a valid slot record: 0, or 31.
pub fn tarpaulark_slots_valid(bytes: &[u8; RECORD]) -> u32
    ensures { result ≡ bytes_refusal bytes.now }
{
    tarpaulark_slots::valid(bytes)
}

// How many slots of a record are startable, as the record keeps it, or 0 beside the refusal 31.
pub fn tarpaulark_slots_startable(bytes: &[u8; RECORD], out: &mut [u64; 1]) -> u32
    ensures { (result ≡ (bytes_startable bytes.now).number)
        × (out.new ≡ (bytes_startable bytes.now).startable ∷ []) }
{
    tarpaulark_slots::startable(bytes, out)
}

// Starts a slot: Start, the started slot's image, of one for each of the places a to d, and the final command line, which is
// put into the space. Answers kind, started slot and the line's length, then as the finder of sections does. A refusal
// after Start leaves the bytes that Start leaves.
pub fn tarpaulark_start(
    bytes: &mut [u8; RECORD],
    a: &[u8],
    b: &[u8],
    c: &[u8],
    d: &[u8],
    misc: &[u8],
    loader: &[u8],
    space: &mut [u8],
    out: &mut [u64; 20],
) -> u32
    ensures { record { number = result; answer = out.new; bytes = bytes.new; space = space.new }
        ≡ start_bytes bytes.old (a.now ∷ b.now ∷ c.now ∷ d.now ∷ []) misc.now loader.now space.old }
{
    tarpaulark_starter::start(bytes, &[a, b, c, d], misc, loader, space, out)
}

// Counts an image in a report, judged for a partition of so many bytes. A report is accepted, blocks, bytes, skipped,
// largest, then the counts of the refusal numbers 1 to 11. A refusal leaves it.
pub fn tarpaulark_report_count(report: &mut [u64; REPORT], image: &[u8], partition_len: u64) -> u32
    ensures { (result ≡ (counted (report_in report.old) (record { image = image.now; room = partition_len })).number)
        × (report.new ≡ report_numbers (counted (report_in report.old) (record { image = image.now; room = partition_len })).report) }
{
    tarpaulark_report::count(report, image, partition_len)
}

// Adds another report to one. A refusal leaves both.
pub fn tarpaulark_report_add(report: &mut [u64; REPORT], other: &[u64; REPORT]) -> u32
    ensures { (result ≡ (added (report_in report.old) (report_in other.now)).number)
        × (report.new ≡ report_numbers (added (report_in report.old) (report_in other.now)).report) }
{
    tarpaulark_report::add(report, other)
}
