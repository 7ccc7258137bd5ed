use cs_base::Ordered;
use cs_item::Part;

/// The parts of some regions, ascending by region.
pub type Parts = Ordered<Part>;
