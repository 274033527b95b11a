use crate::fits::RelationFits;
use std::marker::Model;

/// The files that a command names. Contracts see their names as bytes.
#[derive(Drop)]
pub struct Files<'a> {
    /// The model's file; `-` is a name as any other.
    pub model: &'a str,
    /// The policy's file.
    pub policy: &'a str,
}

impl<'a> Model for Files<'a> {
    ghost use Rattle.command_words.specs.FileNames.{FileNames};

    ghost Value = { FileNames };

    ghost view = { λ f. record { model = f.model.now; policy = f.policy.now } };
}

/// The name that a command asks about. Contracts see it, and its domain, as bytes.
#[derive(Drop)]
pub struct Subject<'a> {
    pub name: &'a str,
    /// The domain, where one is told.
    pub domain: Option<&'a str>,
}

impl<'a> Model for Subject<'a> {
    ghost use Rattle.std.specs.Prelude.{option_map};
    ghost use Rattle.command_words.specs.FileNames.{SubjectName};

    ghost Value = { SubjectName };

    ghost view = { λ s. record {
      name = s.name.now;
      domain = option_map (λ domain. domain.now) s.domain;
    } };
}

/// What a command says of roles.
#[derive(Drop)]
pub struct Options {
    /// The greatest number of links by which a name has a role, from 1 to 250; 10 unless it is told.
    pub limit: u8,
    /// The relations whose names are compared by a function.
    pub names: RelationFits,
    /// The relations whose domains are compared by a function.
    pub domains: RelationFits,
}

/// What the words behind the program's name ask for.
#[derive(Drop)]
pub enum Command<'a> {
    /// Requests are answered by one policy; with a cache of so many answers, from 1 to 10,000, where it is told.
    Enforce {
        files: Files<'a>,
        options: Options,
        json: bool,
        cache: Option<u32>,
    },
    /// Requests are answered, each with its first near misses, from 1 to 1,000 at most; 10 unless it is told.
    Explain {
        files: Files<'a>,
        options: Options,
        json: bool,
        most: u32,
    },
    /// A script of requests and edits is answered, with 0 to 8 workers; 0 unless it is told.
    Session {
        files: Files<'a>,
        options: Options,
        json: bool,
        workers: u8,
    },
    /// A model and a policy are checked.
    Check(Files<'a>),
    /// A model and a policy are printed.
    Format(Files<'a>),
    /// The implied roles, users and permissions of a name are told.
    Implicit {
        files: Files<'a>,
        subject: Subject<'a>,
        options: Options,
    },
    /// The implied roles of all names are reported.
    Report {
        files: Files<'a>,
        options: Options,
    },
    /// The edits that a script publishes are told as packets.
    Ship {
        files: Files<'a>,
        options: Options,
    },
    /// Packets are taken.
    Follow {
        files: Files<'a>,
        options: Options,
    },
    /// What is wrong with a model and a policy is told.
    Lint {
        files: Files<'a>,
        options: Options,
    },
    /// A demonstration of a size from 1 to 100,000, with 0 to 8 workers; 0 unless it is told.
    Demo {
        count: u32,
        workers: u8,
    },
}
