//! The kinds of sketch, and what each of them allows.
ghost use Rattle.std.specs.Prelude.{◌≡◌};
ghost use Rattle.sketch_defs.specs.Tasks.{most_rows, allows_rows, allows};

use pkt_headers::Attr;

/// Which sketch a task keeps.
#[derive(Clone, Copy, Debug, PartialEq, Eq)]
pub enum Kind {
    /// Count-Min: each row adds the weights.
    Cms,
    /// SuMax that adds the weights to the least counters alone.
    SumaxSum,
    /// SuMax that keeps the greatest weight.
    SumaxMax,
    /// A Bloom filter, with 32 bits a cell.
    Bloom,
    /// The array of counters from which MRAC takes a distribution of sizes.
    Mrac,
    /// HyperLogLog.
    Hll,
    /// The flags of the packets, each set where some packet set it.
    FlagOr,
    /// The flags of the packets, each set where every packet set it.
    FlagAnd,
}

impl Kind {
    /// The most rows that a task of this kind may have.
    pub fn most_rows(self) -> u32
        ensures { result ≡ most_rows self }
    {
        match self {
            Kind::Mrac | Kind::Hll => 1,
            _ => 4,
        }
    }

    /// Whether a task of this kind may have so many rows.
    #[tactic(auto, using(std::proofs::lemmas::Bool::Decides::nat_tests))]
    pub fn allows_rows(self, rows: u32) -> bool
        ensures { result ≡ allows_rows self rows }
    {
        1 <= rows && rows <= self.most_rows()
    }

    /// Whether a task of this kind may have the attribute.
    pub fn allows(self, attr: Attr) -> bool
        ensures { result ≡ allows self attr }
    {
        match self {
            Kind::Cms | Kind::SumaxSum | Kind::SumaxMax | Kind::Mrac => {
                matches!(attr, Attr::Packets | Attr::Bytes | Attr::Ttl)
            }
            Kind::Bloom | Kind::Hll => matches!(attr, Attr::Flow),
            Kind::FlagOr | Kind::FlagAnd => matches!(attr, Attr::Flags),
        }
    }
}
