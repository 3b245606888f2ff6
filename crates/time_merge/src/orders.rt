//! Orders of segments: where these stand, one after another.
ghost use Rattle.std.specs.Prelude.{◌≡◌, ◌<◌, length, slice_index_or};
ghost use Rattle.time_merge.specs.KeyedSegments.{no_place, places_in};

/// Where a segment stands: the number of its list, and its index there.
#[derive(Clone, Copy, Debug)]
pub(crate) struct Place {
    pub(crate) list: usize,
    pub(crate) index: usize,
}

/// Places in an order.
#[derive(Debug, Drop)]
pub(crate) enum Order {
    Listed(Vec<Place>),
    /// The places of this number of segments of list 0, as they stand.
    OfOneList(usize),
}

impl Order {
    pub(crate) fn len(&self) -> usize
        ensures { result ≡ length (places_in self.now) }
    {
        match self {
            Order::Listed(places) => places.len(),
            Order::OfOneList(count) => *count,
        }
    }

    pub(crate) fn place(&self, number: usize) -> Place
        requires { number < length (places_in self.now) }
        ensures { result ≡ slice_index_or (places_in self.now) number no_place }
    {
        match self {
            Order::Listed(places) => places[number],
            Order::OfOneList(_) => Place {
                list: 0,
                index: number,
            },
        }
    }
}
