ghost use Rattle.std.specs.Prelude.{◌≡◌, ◌⊎◌, ℕ, IsSome, List, Some, false, true};
ghost use Rattle.outside.specs.Told.{with_back};
ghost use Rattle.run_status.specs.Statuses.{status_of};
ghost use Rattle.run_status.specs.declared.status.Status as declared;
ghost use Rattle.run_status.specs.declared.status.Status.TheVariants as statuses;
ghost use Rattle.run_status.specs.declared.stop.Stop.{Stop};
ghost use Rattle.casbin_run.specs.Answered.{IsCalmlyAnswered};
ghost use Rattle.casbin_run.specs.Causes.{Cause};
ghost use Rattle.casbin_run.specs.Finders.{HaveRefusedUnreadable};
ghost use Rattle.casbin_run.specs.Ends.{Ends, is_of_files};
ghost use Rattle.casbin_run.specs.Given.{Given, IsInOrder};
ghost use Rattle.casbin_run.specs.Jobs.{ask_for_workers, job_asked};
ghost use Rattle.casbin_run.specs.Shown.{WroteModel, WrotePolicy};
ghost use Rattle.casbin_run.specs.declared.job.Job.{Job};
ghost use Rattle.casbin_run.specs.declared.job.Task.TheVariants.{Check, Format};
ghost use Rattle.casbin_run.specs.Worlds.{InputRose, OutRose, ShelfRose, World};
ghost use Rattle.loaded_work.specs.Sinks.{Taken};

use log_ship::{bytes_say_packets_once, every_input_is_packets_or_at_fault, texts_read_in_one_way};
use matcher_read::every_text_is_a_matcher_or_at_fault;
use model_conf::{faulty_text_is_no_model, text_has_one_model_fault, text_says_one_model};
use near_miss::{near_misses_are_one, parts_are_one};
use policy_csv::{
    every_text_is_a_policy_or_at_fault, faulty_text_is_no_policy, text_has_one_policy_fault,
    text_says_one_policy,
};
use rbac_query::{permissions_are_one, relation_has_one_report};
use role_meaning::{implied_roles_are_one, implied_users_are_one};
use script_read::{
    every_input_is_requests_or_at_fault, every_text_is_a_script_or_at_fault,
    faulty_text_is_no_script, input_says_one_list_of_requests, text_has_one_script_fault,
    text_says_one_script,
};
use session_meaning::lines_are_one;

/// The law that what is given, where it is told, has one end: all is in order, or there is a cause of a stop, and one at most,
/// and not both; and where no workers answer, one text at most answers it where nothing is refused but searches for patterns that
/// cannot be read.
pub fn one_end()
    ensures there { (g : Given) → IsSome g.files → IsSome g.input
        → IsInOrder g ⊎ ((stop : Stop) × Cause g stop) }
    ensures one_cause { (g : Given) (first second : Stop) → IsSome g.files → IsSome g.input
        → Cause g first → Cause g second → first ≡ second }
    ensures no_cause { (g : Given) (stop : Stop) → IsSome g.files → IsSome g.input
        → IsInOrder g → ¬ (Cause g stop) }
    ensures one_text { (g : Given) (first second : List ℕ) → IsSome g.files → IsSome g.input
        → ask_for_workers g.words ≡ false
        → IsCalmlyAnswered g first → IsCalmlyAnswered g second → first ≡ second }
{
    every_text_is_a_matcher_or_at_fault();
    every_text_is_a_policy_or_at_fault();
    every_text_is_a_script_or_at_fault();
    every_input_is_requests_or_at_fault();
    text_says_one_model();
    text_has_one_model_fault();
    faulty_text_is_no_model();
    text_says_one_policy();
    text_has_one_policy_fault();
    faulty_text_is_no_policy();
    text_says_one_script();
    text_has_one_script_fault();
    faulty_text_is_no_script();
    input_says_one_list_of_requests();
    every_input_is_packets_or_at_fault();
    bytes_say_packets_once();
    texts_read_in_one_way();
    lines_are_one();
    near_misses_are_one();
    parts_are_one();
    implied_roles_are_one();
    implied_users_are_one();
    permissions_are_one();
    relation_has_one_report();
}

/// The law that a run ends as what is given says, where it is told. A cause gives its own status, unless memory ran out or a
/// file or the input could not be read. Where all is in order and no count rises, the run is done, or memory ran out. Where the
/// finders refuse nothing but patterns that cannot be read, and no workers answer, what is taken is the one text that answers what
/// is given.
pub fn runs_end_as_given()
    ensures exact { (g : Given) (before now : World) (err err_now : Taken)
        (status : declared.Status) (stop : Stop) → IsSome g.files → IsSome g.input
        → Ends g before now err err_now status → Cause g stop
        → (status ≡ status_of stop) ⊎ ((status ≡ statuses.NoMemory)
        ⊎ ((status ≡ statuses.ReadFault) × (ShelfRose before now ⊎ InputRose before now))) }
    ensures complete { (g : Given) (before now : World) (err err_now : Taken)
        (status : declared.Status) → IsSome g.files → IsSome g.input
        → Ends g before now err err_now status → IsInOrder g
        → ¬ (ShelfRose before now) → ¬ (InputRose before now) → ¬ (OutRose before now)
        → (status ≡ statuses.Done) ⊎ (status ≡ statuses.NoMemory) }
    ensures text { (g : Given) (before now : World) (err err_now : Taken) (text : List ℕ)
        → IsSome g.files → IsSome g.input
        → Ends g before now err err_now statuses.Done
        → ask_for_workers g.words ≡ false
        → HaveRefusedUnreadable before.finders now.finders → IsCalmlyAnswered g text
        → now.out.bytes ≡ with_back before.out.bytes text }
{
    one_end();
}

/// The law that the input comes last: a run that stops at its words, at the text of a file or at an option has asked nothing
/// of it.
pub fn input_is_read_last()
    ensures { (g : Given) (before now : World) (err err_now : Taken) (status : declared.Status)
        → Ends g before now err err_now status → is_of_files status ≡ true
        → now.input ≡ before.input }
{}

/// The law that what a run printed of its files reads back: what `format` wrote says the same policy of the same shapes, and
/// what `check` wrote begins with a text that says the same model, unless that text is longer than a model may be.
pub fn shown_files_are_read()
    ensures policy { (g : Given) (before now : World) (err err_now : Taken) (job : Job)
        → Ends g before now err err_now statuses.Done
        → job_asked g.words ≡ Some job → job.task ≡ Format
        → WrotePolicy g job before.out.bytes now.out.bytes }
    ensures model { (g : Given) (before now : World) (err err_now : Taken) (job : Job)
        → Ends g before now err err_now statuses.Done
        → job_asked g.words ≡ Some job → job.task ≡ Check
        → WroteModel g job before.out.bytes now.out.bytes }
{}
