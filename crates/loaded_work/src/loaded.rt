use model_conf::Model;
use perm_base::Shapes;
use policy_table::Tables;

/// A model and a policy of its shapes.
#[derive(Drop)]
pub struct Loaded {
    pub model: Model,
    pub shapes: Shapes,
    pub tables: Tables,
}
