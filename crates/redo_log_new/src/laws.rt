//! Laws, which are theorems about the definitions alone.
ghost use Rattle.std.specs.Prelude.{◌≡◌, ℕ, List, Some, slice_get};
ghost use Rattle.std.specs.List.{list_any};
ghost use Rattle.redo_logs.specs.Logs.{Log};
ghost use Rattle.redo_compare.specs.Baseline.{baseline_of};
ghost use Rattle.redo_new.specs.Laws.{has_news};
ghost use Rattle.redo_new.specs.News.{options_of, shown_nodes};
ghost use Rattle.redo_args.specs.NewJob.{NewParts};
ghost use Rattle.redo_command.specs.Alarm.{is_alarm};
ghost use Rattle.redo_log_new.specs.Alarm.{alarm};
ghost use Rattle.redo_log_new.specs.Job.{job_news, shown_targets};

use redo_new::text_begins_with_new;

/// The text of a job is one after which the program ends with status 1 exactly if a shown target newly fails or has a new diagnostic.
pub fn alarm_says_that_something_is_new()
    ensures { (job : NewParts) (earlier logs : List Log) (requested : List (List ℕ)) →
        is_alarm (Some alarm) (slice_get (job_news job (Some earlier) logs requested) 0)
        ≡ list_any (has_news (baseline_of earlier (options_of job.unchanged) (shown_targets job logs requested)) logs)
        (shown_nodes job.unchanged earlier logs (shown_targets job logs requested)) }
{
    text_begins_with_new();
}
