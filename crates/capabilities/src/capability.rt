// A capability is a number: its base in bits 0 to 15, its length in 16 to 31, its permissions in 32 to 39.
ghost use Rattle.std.specs.Prelude.{◌≡◌, ◌<◌};
ghost use Rattle.capabilities.specs.Capability.{base_of, length_of, permissions_of, permits, bit_of, capability, narrowed, permitted};

// What a capability lets its holder do; its number is its bit among the permissions.
#[derive(Clone, Copy, PartialEq, Eq, Debug)]
pub enum Permission {
    Load = 1,
    Store = 2,
    LoadCapability = 4,
    StoreCapability = 8,
}

impl Permission {
    fn bit(self) -> u8
        ensures value { result ≡ bit_of self }
        ensures some { 0 < result }
    {
        self as u8
    }
}

pub fn base_of(cell: u64) -> u16
    ensures { result ≡ base_of cell }
{
    (cell % 65536) as u16
}

pub fn length_of(cell: u64) -> u16
    ensures { result ≡ length_of cell }
{
    (cell / 65536 % 65536) as u16
}

pub fn permissions_of(cell: u64) -> u8
    ensures { result ≡ permissions_of cell }
{
    (cell / 4294967296 % 256) as u8
}

pub fn permits(cell: u64, permission: Permission) -> bool
    ensures { result ≡ permits cell (bit_of permission) }
{
    permissions_of(cell) / permission.bit() % 2 == 1
}

pub fn capability(base: u16, length: u16, permissions: u8) -> u64
    ensures { result ≡ capability base length permissions }
{
    base as u64 + 65536 * (length as u64) + 4294967296 * (permissions as u64)
}

// The part of a capability that begins `offset` above its base, with the permissions that are also in `mask`.
pub fn narrowed(cell: u64, offset: u16, length: u16, mask: u8) -> u64
    ensures { result ≡ narrowed cell offset length mask }
{
    let base = (base_of(cell) as u32 + offset as u32) % 65536;
    capability(base as u16, length, permissions_of(cell) & mask)
}

// The permissions that are also in `mask`.
pub fn permitted(mask: u8) -> u8
    ensures { result ≡ permitted mask }
{
    15 & mask
}
