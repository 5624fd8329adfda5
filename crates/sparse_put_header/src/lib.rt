// The file header, put at the start of an output. One that does not fit whole changes nothing.
#![tactic(auto)]

ghost use Rattle.std.specs.Prelude.{◌≡◌, ◌≤◌, length};
ghost use Rattle.std.proofs.lemmas.List.Edits.{sets};
ghost use Rattle.fields_rules.specs.Number.{placed};
ghost use Rattle.sparse_write_rules.specs.Encode.{version, header};

// The first 12 bytes of the file header: magic, version 1.0, header sizes 28 and 12.
fn put_version(out: &mut [u8])
    requires { 12 ≤ length out.old }
    ensures { out.new ≡ sets out.old 0 version }
{
    fields_write::write32(out, 0, 0xED26FF3A);
    fields_write::write16(out, 4, 1);
    fields_write::write16(out, 6, 0);
    fields_write::write16(out, 8, 28);
    fields_write::write16(out, 10, 12);
}

// The file header, at the start: block size, total blocks, total chunks, checksum.
pub fn put_header(out: &mut [u8], block: u32, total: u32, chunks: u32, sum: u32)
    ensures { out.new ≡ placed out.old 0 (header block total chunks sum) }
{
    if out.len() < 28 {
        return;
    }
    put_version(out);
    fields_write::write32(out, 12, block);
    fields_write::write32(out, 16, total);
    fields_write::write32(out, 20, chunks);
    fields_write::write32(out, 24, sum);
}
