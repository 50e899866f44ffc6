// Numbers of several bytes, little endian: the widths that the protocol uses. The rules are `little_endian_rules`.
#![tactic(auto)]

ghost use Rattle.std.specs.Prelude.{◌≡◌, [], ◌∷◌};
ghost use Rattle.little_endian_rules.specs.LittleEndian.{from_bytes, to_bytes};

#[tactic(auto, unfolding(little_endian_rules::specs::LittleEndian::from_bytes))]
pub fn u16_from_bytes(b0: u8, b1: u8) -> u16
    ensures { result ≡ from_bytes (b0 ∷ b1 ∷ []) }
{
    u16::from_le_bytes([b0, b1])
}

#[tactic(auto, unfolding(little_endian_rules::specs::LittleEndian::from_bytes))]
pub fn u32_from_bytes(b0: u8, b1: u8, b2: u8, b3: u8) -> u32
    ensures { result ≡ from_bytes (b0 ∷ b1 ∷ b2 ∷ b3 ∷ []) }
{
    u32::from_le_bytes([b0, b1, b2, b3])
}

#[tactic(auto, unfolding(little_endian_rules::specs::LittleEndian::to_bytes))]
pub fn u16_to_bytes(n: u16) -> [u8; 2]
    ensures { result ≡ to_bytes 2 n }
{
    u16::to_le_bytes(n)
}

#[tactic(auto, unfolding(little_endian_rules::specs::LittleEndian::to_bytes))]
pub fn u32_to_bytes(n: u32) -> [u8; 4]
    ensures { result ≡ to_bytes 4 n }
{
    u32::to_le_bytes(n)
}
