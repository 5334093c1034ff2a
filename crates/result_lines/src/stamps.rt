//! Which stamps a result prints.

/// Which stamps the places of a result's journals have.
#[derive(Clone, Copy, Debug, PartialEq, Eq)]
pub enum Stamps {
    /// None are printed, and each is told as 0.
    Unprinted,
    /// Those of places, from 0 to 65,535.
    Places,
    /// Those of places and of a table's notes, from 0 to 131,071.
    PlacesAndNotes,
}
