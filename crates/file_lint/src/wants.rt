ghost use Rattle.std.specs.Prelude.{◌≡◌, ◌≢◌, OnOk};
ghost use Rattle.model_conf.specs.declared.fault.ModelFault.TheVariants as models;
ghost use Rattle.policy_csv.specs.declared.fault.PolicyFault.TheVariants as policies;
ghost use Rattle.file_lint.specs.Helps.Wants.{is_model_want, is_policy_want};

use model_conf::ModelFault;
use outside::NoMemory;
use policy_csv::PolicyFault;

/// Stops where a model was not read for want of memory.
pub(crate) fn unless_model_want(fault: ModelFault) -> Result<(), NoMemory>
    ensures { OnOk result (fault ≢ models.NoMemory) }
{
    if is_model_want(fault) {
        return Err(NoMemory);
    }
    Ok(())
}

fn is_model_want(fault: ModelFault) -> bool
    ensures { result ≡ is_model_want fault }
{
    match fault {
        ModelFault::NoMemory => true,
        _ => false,
    }
}

/// Stops where a policy, or a line of it, was not read for want of memory.
pub(crate) fn unless_policy_want(fault: PolicyFault) -> Result<(), NoMemory>
    ensures { OnOk result (fault ≢ policies.NoMemory) }
{
    if is_policy_want(fault) {
        return Err(NoMemory);
    }
    Ok(())
}

fn is_policy_want(fault: PolicyFault) -> bool
    ensures { result ≡ is_policy_want fault }
{
    match fault {
        PolicyFault::NoMemory => true,
        _ => false,
    }
}
