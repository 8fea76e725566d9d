//! The keys of a profile, and what is wrong with a text that is none.
use std::error::Error;
use std::fmt;

/// A key of a profile.
#[derive(Clone, Copy, Debug, PartialEq, Eq)]
pub enum ProfileKey {
    /// 1, equal groups, or 2, groups with tables of their own.
    Version,
    /// The number of equal groups.
    Groups,
    /// The number of CMUs of a group.
    Cmus,
    /// The number of hash units of a group.
    Units,
    /// An array of a group has 2 to this many registers.
    LogRegisters,
    /// The key of the hash, which may be missing.
    HashKey,
    /// An array has at most 2 to this many partitions.
    LogBlocks,
    /// The tables of the groups.
    Group,
}

/// The first fault of a text that is no profile.
#[derive(Clone, Copy, Debug, PartialEq, Eq)]
pub enum ProfileFault {
    /// It has over 65,536 bytes.
    TooLong,
    /// It is no TOML document.
    NotToml,
    /// Nothing stands at a key.
    Missing { key: ProfileKey },
    /// What stands at a key has another type.
    WrongType { key: ProfileKey },
    /// What stands at a key is too small or too large, or too few or too many.
    OutOfRange { key: ProfileKey },
    /// The hash key is not 104 hexadecimal digits.
    BadHashKey,
}

/// Why no profile was read.
#[derive(Clone, Copy, Debug, PartialEq, Eq)]
pub enum ProfileFail {
    Fault(ProfileFault),
    /// Memory ran out.
    Memory,
}

impl ProfileKey {
    ghost use Rattle.std.specs.Prelude.{◌≡◌, ◌≤◌, length};
    ghost use Rattle.sw_profile.specs.Words.{name_of};

    /// How the key is written in a profile.
    #[tactic(auto, unfolding(crate::specs::Words::name_of))]
    pub fn name(self) -> &'static str
        ensures name { result.now ≡ name_of self }
        ensures short { length result.now ≤ 13 }
    {
        match self {
            ProfileKey::Version => "version",
            ProfileKey::Groups => "groups",
            ProfileKey::Cmus => "cmus",
            ProfileKey::Units => "units",
            ProfileKey::LogRegisters => "log_registers",
            ProfileKey::HashKey => "hash_key",
            ProfileKey::LogBlocks => "log_blocks",
            ProfileKey::Group => "group",
        }
    }
}

impl ProfileFault {
    ghost use Rattle.std.specs.Prelude.{◌≡◌, ◌≤◌, length};
    ghost use Rattle.sw_profile.specs.Words.{words_of, key_of};

    /// What is said of the fault, before its key if it has one.
    pub fn words(self) -> &'static str
        ensures words { result.now ≡ words_of self }
        ensures short { length result.now ≤ 13 }
    {
        match self {
            ProfileFault::TooLong => "too long",
            ProfileFault::NotToml => "not toml",
            ProfileFault::Missing { .. } => "missing ",
            ProfileFault::WrongType { .. } => "wrong type ",
            ProfileFault::OutOfRange { .. } => "out of range ",
            ProfileFault::BadHashKey => "bad hash key",
        }
    }

    /// The key at which the fault is found.
    pub fn key(self) -> Option<ProfileKey>
        ensures { result ≡ key_of self }
    {
        match self {
            ProfileFault::Missing { key }
            | ProfileFault::WrongType { key }
            | ProfileFault::OutOfRange { key } => Some(key),
            ProfileFault::TooLong | ProfileFault::NotToml | ProfileFault::BadHashKey => None,
        }
    }
}

impl fmt::Display for ProfileKey {
    ghost use Rattle.std.specs.Prelude.{Some};
    ghost use Rattle.sw_profile.specs.Words.{name_of};

    ghost output = { λ key. Some (name_of key) };

    fn fmt<W: fmt::Write>(&self, f: &mut fmt::Formatter<W>) -> fmt::Result {
        f.write_str(self.name())
    }
}

impl fmt::Display for ProfileFault {
    ghost use Rattle.std.specs.Prelude.{Some};
    ghost use Rattle.sw_profile.specs.Words.{fault_text};

    ghost output = { λ fault. Some (fault_text fault) };

    fn fmt<W: fmt::Write>(&self, f: &mut fmt::Formatter<W>) -> fmt::Result {
        f.write_str(self.words())?;
        match self.key() {
            Some(key) => f.write_str(key.name()),
            None => Ok(()),
        }
    }
}

impl Error for ProfileFault {}
