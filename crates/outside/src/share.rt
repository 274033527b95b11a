/// What threads may send to each other and share.
pub trait Share: Send + Sync {}
