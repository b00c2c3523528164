//! Numbers at the end of a vector that has room for them.

ghost use Rattle.std.specs.Prelude.{◌≡◌, ◌+◌, ◌*◌, ◌≤◌, ◌++◌, length, vec_len, vec_capacity};
ghost use Rattle.std.specs.Int.{w64, cast_unsigned};
ghost use Rattle.pup_state.specs.Spelling.{cells_spelling, field};

use byteorder::{ByteOrder, LittleEndian};

// Bytes at the end.
pub(crate) fn put(out: &mut Vec<u8>, bytes: &[u8])
    requires { vec_len out.old + length bytes.now ≤ vec_capacity out.old }
    ensures items { out.new.items ≡ out.old.items ++ bytes.now }
    ensures len { vec_len out.new ≡ vec_len out.old + length bytes.now }
    ensures room { vec_capacity out.old ≤ vec_capacity out.new }
{
    out.extend_from_slice(bytes).unwrap();
}

#[tactic(auto, unfolding(crate::specs::Spelling::field))]
pub(crate) fn put_u8(out: &mut Vec<u8>, number: u8)
    requires { vec_len out.old + 1 ≤ vec_capacity out.old }
    ensures items { out.new.items ≡ out.old.items ++ field 1 number }
    ensures len { vec_len out.new ≡ vec_len out.old + 1 }
    ensures room { vec_capacity out.old ≤ vec_capacity out.new }
{
    put(out, &[number]);
}

#[tactic(auto, unfolding(crate::specs::Spelling::field))]
pub(crate) fn put_u16(out: &mut Vec<u8>, number: u16)
    requires { vec_len out.old + 2 ≤ vec_capacity out.old }
    ensures items { out.new.items ≡ out.old.items ++ field 2 number }
    ensures len { vec_len out.new ≡ vec_len out.old + 2 }
    ensures room { vec_capacity out.old ≤ vec_capacity out.new }
{
    let mut field = [0; 2];
    LittleEndian::write_u16(&mut field, number);
    put(out, &field);
}

#[tactic(auto, unfolding(crate::specs::Spelling::field))]
pub(crate) fn put_u32(out: &mut Vec<u8>, number: u32)
    requires { vec_len out.old + 4 ≤ vec_capacity out.old }
    ensures items { out.new.items ≡ out.old.items ++ field 4 number }
    ensures len { vec_len out.new ≡ vec_len out.old + 4 }
    ensures room { vec_capacity out.old ≤ vec_capacity out.new }
{
    let mut field = [0; 4];
    LittleEndian::write_u32(&mut field, number);
    put(out, &field);
}

#[tactic(auto, unfolding(crate::specs::Spelling::field))]
pub(crate) fn put_u64(out: &mut Vec<u8>, number: u64)
    requires { vec_len out.old + 8 ≤ vec_capacity out.old }
    ensures items { out.new.items ≡ out.old.items ++ field 8 number }
    ensures len { vec_len out.new ≡ vec_len out.old + 8 }
    ensures room { vec_capacity out.old ≤ vec_capacity out.new }
{
    let mut field = [0; 8];
    LittleEndian::write_u64(&mut field, number);
    put(out, &field);
}

// Cells, each by its 64 bits.
pub(crate) fn put_cells(out: &mut Vec<u8>, cells: &[i64])
    requires { vec_len out.old + 8 * length cells.now ≤ vec_capacity out.old }
    ensures { out.new.items ≡ out.old.items ++ cells_spelling cells.now }
{
    for cell in cells {
        put_u64(out, cell.cast_unsigned());
    }
}
