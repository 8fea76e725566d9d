//! Laws of the placement rule. Each is the contract of an empty function.
ghost use Rattle.placer.specs.Laws.{OrderIsFree, PlacesStand};

/// The rows of an accepted task stand on different arrays in order of their numbers, each of them
/// open and with a free partition; rows of SuMax-Sum stand in different groups, too.
pub fn places_stand()
    ensures { PlacesStand }
{}

/// In which order the entries of an array stand does not change where rows go.
pub fn order_is_free()
    ensures { OrderIsFree }
{}
