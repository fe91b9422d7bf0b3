use store::StoreFault;

// Why a node is not copied: the first place that cannot be read, or that has none to go to.
#[derive(Clone, Copy)]
pub enum CopyFault {
    Source(StoreFault),
    Target(StoreFault),
}
