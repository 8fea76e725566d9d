//! Laws of keys, and of IPv6 addresses as texts, each the contract of an empty function.
ghost use Rattle.key_mask.specs.Laws.{KeysAreRead, NoOthersAreKeys, KeyAgain, OnlyKey, AddressesAreRead, NoOthersAreAddresses};

/// A text that spells parts of a mask, in any order, is read as their mask.
pub fn keys_are_read()
    ensures { KeysAreRead }
{}

/// No other text is read as a key.
pub fn no_others_are_keys()
    ensures { NoOthersAreKeys }
{}

/// The canonical key of a mask is read as that mask.
pub fn key_again()
    ensures { KeyAgain }
{}

/// No other canonical text is.
pub fn only_key()
    ensures { OnlyKey }
{}

/// Each text of the grammar of IPv6 addresses is read as its groups.
pub fn addresses_are_read()
    ensures { AddressesAreRead }
{}

/// No other text is read as an address.
pub fn no_others_are_addresses()
    ensures { NoOthersAreAddresses }
{}
