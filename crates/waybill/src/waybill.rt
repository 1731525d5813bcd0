//! What a waybill says.

/// What stands in front of the items.
#[derive(Clone, Copy, Debug, PartialEq, Eq)]
pub struct Front<'a> {
    /// How many seals stand at the end, at most 15.
    pub seals: u8,
    /// The lowest bit says that this is a part.
    pub flags: u64,
    /// A text of 1 to 8 octets, or nobody.
    pub sender: Option<&'a [u8]>,
    /// Stands there where the flags say so.
    pub part: Option<Part>,
}

/// Where a part begins, and how large the whole is.
#[derive(Clone, Copy, Debug, PartialEq, Eq)]
pub struct Part {
    pub offset: u64,
    pub total: u64,
}

/// One item. Its content is passed over.
#[derive(Clone, Copy, Debug, PartialEq, Eq)]
pub struct Item {
    /// 0 to 3. Odd kinds are goods, kinds from 2 on are the last item.
    pub kind: u8,
    /// No two items have the same.
    pub number: u64,
}

/// A waybill, whose sender is lent out of the octets.
#[derive(Debug, Drop)]
pub struct Waybill<'a> {
    pub front: Front<'a>,
    pub items: Vec<Item>,
    /// No seal is smaller than the one before it.
    pub seals: Vec<u64>,
}
