ghost use Rattle.std.specs.Prelude.{◌≡◌};
ghost use Rattle.script_text.specs.Rows.{command_form, schedule_form, form_of, row_of};

use crate::reader::format::member::Member;
use crate::reader::format::name::Name;
use crate::reader::format::row;
use crate::reader::values::members::text_at;
use n1ql_value::Pairs;

/// The form of a line after the header.
#[derive(Clone, Copy)]
pub(crate) enum Form {
    /// A command of a client: puts a document.
    Upsert,
    /// A command: deletes a document.
    Delete,
    /// A command: a statement on indexes.
    Ddl,
    /// A command: a scan of an index.
    Scan,
    /// A command: a query.
    Query,
    /// A turn of the schedule: the next action of a client.
    Client,
    /// A turn: the projector takes the next piece of a vBucket.
    Project,
    /// A turn: an index applies a piece.
    Deliver,
    /// A turn: an index loses a piece.
    Lose,
    /// A turn: an index publishes a snapshot.
    Publish,
    /// A turn: the projector goes back.
    Rewind,
}

impl Form {
    /// The form of the line with these members, by the word under `do` or else under `s`.
    #[tactic(auto, unfolding(crate::specs::Rows::form_of))]
    pub(crate) fn of(members: &Pairs) -> Option<Form>
        ensures { result ≡ form_of members.now }
    {
        match command_form(text_at(members, Name::Do, "")) {
            Some(form) => Some(form),
            None => schedule_form(text_at(members, Name::S, "")),
        }
    }

    /// The members that a line of this form has.
    #[tactic(auto, unfolding(crate::specs::Rows::row_of))]
    pub(crate) fn row(self) -> &'static [Member]
        ensures { result.now ≡ row_of self }
    {
        match self {
            Form::Upsert => &row::UPSERT,
            Form::Delete => &row::DELETE,
            Form::Ddl => &row::DDL,
            Form::Scan => &row::SCAN,
            Form::Query => &row::QUERY,
            Form::Client => &row::CLIENT,
            Form::Project => &row::PROJECT,
            Form::Deliver => &row::DELIVER,
            Form::Lose => &row::LOSE,
            Form::Publish => &row::PUBLISH,
            Form::Rewind => &row::REWIND,
        }
    }
}

fn command_form(word: &str) -> Option<Form>
    ensures { result ≡ command_form word.now }
{
    if word == "upsert" {
        Some(Form::Upsert)
    } else if word == "delete" {
        Some(Form::Delete)
    } else if word == "ddl" {
        Some(Form::Ddl)
    } else if word == "scan" {
        Some(Form::Scan)
    } else if word == "query" {
        Some(Form::Query)
    } else {
        None
    }
}

fn schedule_form(word: &str) -> Option<Form>
    ensures { result ≡ schedule_form word.now }
{
    if word == "client" {
        Some(Form::Client)
    } else if word == "project" {
        Some(Form::Project)
    } else if word == "deliver" {
        Some(Form::Deliver)
    } else if word == "lose" {
        Some(Form::Lose)
    } else if word == "publish" {
        Some(Form::Publish)
    } else if word == "rewind" {
        Some(Form::Rewind)
    } else {
        None
    }
}
