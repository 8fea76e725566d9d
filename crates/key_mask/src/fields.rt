//! The fields of a key vector: their order, their places and widths, and what their values are.
ghost use Rattle.std.specs.Prelude.{◌≡◌, ◌+◌, ◌<◌, ◌≤◌};
ghost use Rattle.key_mask.specs.Fields.{field_number, start_of, width_of, size_of, kind_of, prefix_digits, is_address, is_length, name_of};

/// How many bytes a key vector has.
pub const KEY_BYTES: usize = 48;

/// How many fields share them.
pub const FIELD_COUNT: usize = 9;

/// A field of a packet's headers.
#[derive(Clone, Copy, Debug, PartialEq, Eq)]
pub enum Field {
    SrcIp,
    DstIp,
    SrcPort,
    DstPort,
    Proto,
    Tos,
    EtherType,
    SrcIp6,
    DstIp6,
}

/// What the values of a field are, and so how they are written.
#[derive(Clone, Copy, Debug, PartialEq, Eq)]
pub enum ValueKind {
    /// IPv4 addresses.
    Ipv4,
    /// Numbers of 16 bits, in decimal.
    Port,
    /// Numbers of 8 bits, in decimal.
    Byte,
    /// Numbers of 16 bits, in hexadecimal.
    Hex,
    /// IPv6 addresses.
    Ipv6,
}

/// The fields in the order in which they stand in a key vector, each most significant byte first.
pub const FIELDS: [Field; FIELD_COUNT] = [
    Field::SrcIp,
    Field::DstIp,
    Field::SrcPort,
    Field::DstPort,
    Field::Proto,
    Field::Tos,
    Field::EtherType,
    Field::SrcIp6,
    Field::DstIp6,
];

/// A column of the table of the fields: the field's name in texts, its first byte, its bits, and
/// what its values are.
macro_rules! column {
    ($column:ident of $field:expr) => {
        match $field {
            Field::SrcIp => $column!("src_ip", 0, 32, Ipv4),
            Field::DstIp => $column!("dst_ip", 4, 32, Ipv4),
            Field::SrcPort => $column!("src_port", 8, 16, Port),
            Field::DstPort => $column!("dst_port", 10, 16, Port),
            Field::Proto => $column!("proto", 12, 8, Byte),
            Field::Tos => $column!("tos", 13, 8, Byte),
            Field::EtherType => $column!("ethertype", 14, 16, Hex),
            Field::SrcIp6 => $column!("src_ip6", 16, 128, Ipv6),
            Field::DstIp6 => $column!("dst_ip6", 32, 128, Ipv6),
        }
    };
}

macro_rules! name {
    ($name:literal, $start:literal, $width:literal, $kind:ident) => {
        $name
    };
}

macro_rules! start {
    ($name:literal, $start:literal, $width:literal, $kind:ident) => {
        $start
    };
}

macro_rules! width {
    ($name:literal, $start:literal, $width:literal, $kind:ident) => {
        $width
    };
}

macro_rules! kind {
    ($name:literal, $start:literal, $width:literal, $kind:ident) => {
        ValueKind::$kind
    };
}

impl Field {
    /// Its place among the fields, from 0.
    pub fn number(self) -> usize
        ensures place { result ≡ field_number self }
        ensures below { result < FIELD_COUNT }
    {
        self as usize
    }

    /// Its name in texts.
    pub fn name(self) -> &'static str
        ensures { result.now ≡ name_of self }
    {
        column!(name of self)
    }

    /// The place of its first byte in a key vector.
    pub fn start(self) -> usize
        ensures place { result ≡ start_of self }
        ensures inside { result + size_of self ≤ KEY_BYTES }
    {
        column!(start of self)
    }

    /// Its width in bits, a multiple of 8.
    pub fn width(self) -> u8
        ensures { result ≡ width_of self }
    {
        column!(width of self)
    }

    /// How many bytes it has.
    pub fn size(self) -> usize
        ensures size { result ≡ size_of self }
        ensures most { result ≤ 16 }
    {
        self.width() as usize / 8
    }

    /// What its values are.
    pub fn kind(self) -> ValueKind
        ensures { result ≡ kind_of self }
    {
        column!(kind of self)
    }

    /// Whether a mask may leave a prefix of it, and not only the whole.
    pub fn is_address(self) -> bool
        ensures { result ≡ is_address self }
    {
        self.kind().prefix_digits().is_some()
    }

    /// Whether a mask in which it stands may have this prefix length there.
    pub fn allows(self, length: u32) -> bool
        ensures { result ≡ is_length self length }
    {
        let width = u32::from(self.width());
        if self.is_address() {
            1 <= length && length <= width
        } else {
            length == width
        }
    }
}

impl ValueKind {
    /// How many digits a prefix may have, where they are addresses, of which a mask may leave a
    /// prefix.
    pub fn prefix_digits(self) -> Option<usize>
        ensures { result ≡ prefix_digits self }
    {
        match self {
            ValueKind::Ipv4 => Some(2),
            ValueKind::Ipv6 => Some(3),
            ValueKind::Port | ValueKind::Byte | ValueKind::Hex => None,
        }
    }
}
