// The state after one byte, half a byte a step from the one table of sixteen numbers.
ghost use Rattle.std.specs.Prelude.{◌≡◌};
ghost use Rattle.crc32_rules.specs.Crc.{steps, byte_step};

// What four one-bit steps make of each half byte.
static TABLE: [u32; 16] = [
    0x00000000, 0x1db71064, 0x3b6e20c8, 0x26d930ac, 0x76dc4190, 0x6b6b51f4, 0x4db26158, 0x5005713c,
    0xedb88320, 0xf00f9344, 0xd6d6a3e8, 0xcb61b38c, 0x9b64c2b0, 0x86d3d2d4, 0xa00ae278, 0xbdbdf21c,
];

// Four one-bit steps: the low half byte through the table, the rest moves down.
fn nibble(state: u32) -> u32
    ensures { result ≡ steps 4 state }
{
    TABLE[(state % 16) as usize] ^ (state / 16)
}

// The state after the byte.
#[tactic(auto, unfolding(crc32_rules::specs::Crc::byte_step, crc32_rules::specs::Crc::steps))]
pub(crate) fn byte(state: u32, x: u8) -> u32
    ensures { result ≡ byte_step state x }
{
    nibble(nibble(state ^ u32::from(x)))
}
