ghost use Rattle.std.specs.Prelude.{◌≡◌, codes};
ghost use Rattle.log_ship.specs.declared.packet_fault.PacketFault.{PacketFault};
ghost use Rattle.matcher_read.specs.declared.fault.MatcherFault.{MatcherFault};
ghost use Rattle.model_conf.specs.declared.fault.ModelFault.{ModelFault};
ghost use Rattle.model_conf.specs.declared.key.Key.{Key};
ghost use Rattle.policy_csv.specs.declared.fault.PolicyFault.{PolicyFault};
ghost use Rattle.script_read.specs.declared.fault.LineCause.{LineCause};
ghost use Rattle.script_read.specs.declared.fault.ScriptFault.{ScriptFault};
ghost use Rattle.run_status.specs.Messages.{line_of};
ghost use Rattle.run_status.specs.Statuses.{status_of};
ghost use Rattle.run_status.specs.declared.part.Part.{Part};
ghost use Rattle.run_status.specs.declared.stop.Stop.{Stop};

/// The law that two stops of one line have one status.
pub fn line_tells_the_status()
    ensures { (first second : Stop)
        → line_of first ≡ line_of second → status_of first ≡ status_of second }
{}

/// Some lines in full, as examples of what the definition says.
pub fn lines_in_full()
    ensures words { line_of Stop.Words
        ≡ codes "usage: casbin_cli COMMAND [OPTION]... [WORD]...\n" }
    ensures unreadable { line_of (Stop.CannotRead Part.Model) ≡ codes "cannot read: model\n" }
    ensures too_long { line_of (Stop.TooLong Part.Input)
        ≡ codes "too long: input, limit 16777216\n" }
    ensures report { line_of (Stop.TooLong Part.Report)
        ≡ codes "too long: report, limit 16777216\n" }
    ensures missing { line_of (Stop.NoModel (ModelFault.Missing Key.M))
        ≡ codes "model: missing m\n" }
    ensures shape { line_of (Stop.NoModel (ModelFault.RoleShape 2))
        ≡ codes "model: shape of g2\n" }
    ensures effect { line_of (Stop.NoModel ModelFault.UnknownEffect)
        ≡ codes "model: unknown effect\n" }
    ensures column { line_of (Stop.NoModel (ModelFault.UnknownColumn 10))
        ≡ codes "model: matcher at 10: unknown column\n" }
    ensures matcher { line_of (Stop.NoModel (ModelFault.Matcher (MatcherFault.OpenText 10)))
        ≡ codes "model: matcher at 10: open text\n" }
    ensures call { line_of (Stop.NoModel (ModelFault.Matcher (MatcherFault.UnknownFunction 1)))
        ≡ codes "model: matcher at 1: unknown function\n" }
    ensures end { line_of (Stop.NoModel (ModelFault.Matcher (MatcherFault.Unexpected 9)))
        ≡ codes "model: matcher at 9: unexpected\n" }
    ensures option { line_of (Stop.NoRelation 1) ≡ codes "model: option names g\n" }
    ensures quote { line_of (Stop.NoPolicy (PolicyFault.Quote 1 4))
        ≡ codes "policy: line 1, column 4: quote\n" }
    ensures table { line_of (Stop.NoPolicy (PolicyFault.UnknownTable 200001))
        ≡ codes "policy: line 200001: unknown table\n" }
    ensures batch { line_of (Stop.NoScript (ScriptFault.OpenBatch 5))
        ≡ codes "script: line 5: open batch\n" }
    ensures packet { line_of (Stop.NoPackets (PacketFault.Line 3))
        ≡ codes "script: line 3: packet\n" }
    ensures cause { line_of (Stop.NoScript (ScriptFault.Line 7 LineCause.Unpaired))
        ≡ codes "script: line 7: unpaired\n" }
{}
