// A second check of a lent diagram, numbers 1 to 6: each entry judged by itself, straight from the scope's words. It uses nothing
// of the library. Assumes nothing.
use numbers::{difference, entry, sum};
use std::iter;

// The three lists of a lent diagram. Stays beside the library's own: the second check is to share nothing with it.
#[derive(Clone, Copy)]
pub struct Lists<'a> {
    pub domains: &'a [u32],
    pub layers: &'a [u32],
    pub targets: &'a [u32],
}

// What has to be refused: the number and the place.
#[derive(Clone, Copy, PartialEq, Eq)]
pub struct Due {
    pub number: usize,
    pub place: usize,
}

impl Due {
    // Refused, by this number at this place.
    pub fn at<T>(number: usize, place: usize) -> Result<T, Due> {
        Err(Due { number, place })
    }
}

// Two numbers in order, as they come in the table: a bad count is refused by `number` at 0, a bad entry by the next at its
// index.
pub fn rules(number: usize, good_count: bool, first_bad: Option<usize>) -> Result<(), Due> {
    if !good_count {
        return Due::at(number, 0);
    }
    match first_bad {
        Some(place) => Due::at(sum(number, 1), place),
        None => Ok(()),
    }
}

impl Lists<'_> {
    // How many edges a node of this layer has: the domain of its option.
    pub fn edges_of(self, layer: u32) -> usize {
        entry(self.domains, difference(layer as usize, 1))
    }

    // E.
    pub fn edge_count(self) -> usize {
        self.layers
            .iter()
            .fold(0, |n, layer| sum(n, self.edges_of(*layer)))
    }

    // ---- each of these gives the first bad index

    fn first_bad_domain(self) -> Option<usize> {
        self.domains.iter().position(|d| !(1..=32).contains(d))
    }

    fn is_good_layer(self, v: usize, layer: usize) -> bool {
        if v == 0 {
            return layer == 1;
        }
        (2..=self.domains.len()).contains(&layer) && entry(self.layers, difference(v, 1)) <= layer
    }

    fn first_bad_layer(self) -> Option<usize> {
        self.layers
            .iter()
            .enumerate()
            .position(|(v, layer)| !self.is_good_layer(v, *layer as usize))
    }

    // An edge of a node of layer `layer` may lead to reference `target`.
    fn is_permitted(self, layer: usize, target: usize) -> bool {
        match target {
            0 => true,
            1 => layer == self.domains.len(),
            _ => layer != self.domains.len()
                && entry(self.layers, difference(target, 2)) == sum(layer, 1),
        }
    }

    // Beside each target stands the layer of its edge's node.
    fn first_bad_target(self) -> Option<usize> {
        self.layers
            .iter()
            .flat_map(|layer| iter::repeat_n(*layer, self.edges_of(*layer)))
            .zip(self.targets)
            .position(|(layer, target)| !self.is_permitted(layer as usize, *target as usize))
    }

    // ---- the numbers in order

    pub fn check(self) -> Result<(), Due> {
        let options = self.domains.len();
        let nodes = self.layers.len();
        let edges = self.targets.len();
        rules(1, (1..=64).contains(&options), self.first_bad_domain())?;
        rules(3, (1..=4096).contains(&nodes), self.first_bad_layer())?;
        rules(5, edges == self.edge_count(), self.first_bad_target())
    }
}
