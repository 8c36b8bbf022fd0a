ghost use Rattle.std.specs.Prelude.{◌≡◌, ◌≤◌, ◌+◌, ◌-◌, ◌++◌, true, None, Some, IsNone, IfSome, ◌↔◌, length, replicate, slice_set};
ghost use Rattle.arrayvec.specs.ArrayVec.{array_vec_len};
ghost use Rattle.std.specs.Option.{option_copied, option_map};
ghost use Rattle.std.specs.List.{list_any};
ghost use Rattle.tbl_kinds.specs.Names.{is_name};
ghost use Rattle.tbl_model.specs.State.{State};
ghost use Rattle.tbl_model.specs.Effects.{answered};
ghost use Rattle.tbl_model.specs.Applications.{has_dot, full_name, start_effect};
ghost use Rattle.sharing.specs.Apps.{app_name};

use arrayvec::ArrayVec;
use std::marker::Model;
use tbl_kinds::{Name, Name16, Name20, Name40, Status};

/// The names of the sixteen applications: the name of application a is at place a - 1. Each of them is a name.
#[derive(Drop)]
pub struct Apps {
    names: [Option<Name20>; 16],
}

impl Model for Apps {
    ghost use Rattle.std.specs.Prelude.{◌≡◌, ℕ, List, Option, length};
    ghost use Rattle.sharing.specs.Apps.{AreNamed};

    ghost Value = { List (Option (List ℕ)) };

    ghost view = { λ a. a.names };

    ghost invariant = { λ a. (length a.names ≡ 16) × AreNamed a.names };
}

/// Whether a byte of the name is a dot.
fn has_dot(name: &[u8]) -> bool
    ensures { result ≡ has_dot name.now }
{
    name.iter().any(|byte| *byte == b'.')
}

/// Puts further bytes of a full name last.
fn append(bytes: &mut ArrayVec<u8, 40>, more: &[u8])
    requires { array_vec_len bytes.old + length more.now ≤ 40 }
    ensures items { bytes.new.items ≡ bytes.old.items ++ more.now }
    ensures len { array_vec_len bytes.new ≡ array_vec_len bytes.old + length more.now }
{
    let _ = bytes.try_extend_from_slice(more);
}

/// Application, dot, short name.
#[tactic(auto, using(crate::proofs::Names::full_is))]
fn full_name(app: &Name20, short: &Name16) -> Name40
    ensures name { result ≡ full_name app.now short.now }
    ensures within { length result ≤ 37 }
    ensures named { is_name app.now ≡ true → is_name short.now ≡ true → is_name result ≡ true }
{
    let mut bytes: ArrayVec<u8, 40> = ArrayVec::new();
    append(&mut bytes, app.bytes());
    append(&mut bytes, b".".as_slice());
    append(&mut bytes, short.bytes());
    Name::of(bytes.as_slice())
}

/// No name is at a place any more, if there is such a place.
fn free(names: &mut [Option<Name20>], place: usize)
    ensures { names.new ≡ slice_set names.old place None }
{
    let past = names.len() <= place;
    if past {
        return;
    }
    names[place] = None;
}

/// The same name once more, if there is one. It takes no memory.
fn copy_of(name: &Option<Name20>) -> Option<Name20>
    ensures { result ≡ name.now }
{
    match name {
        Some(name) => Some(name.copy()),
        None => None,
    }
}

/// Writes the same names over others, of which there are as many.
fn copy_names(names: &mut [Option<Name20>], from: &[Option<Name20>])
    requires { length names.old ≡ length from.now }
    ensures { names.new ≡ from.now }
{
    for place in 0..from.len() {
        names[place] = copy_of(&from[place]);
    }
}

/// The name of no application.
fn no_names() -> [Option<Name20>; 16]
    ensures { result ≡ replicate 16 None }
{
    [
        None, None, None, None, None, None, None, None, None, None, None, None, None, None, None,
        None,
    ]
}

impl Apps {
    /// No application runs.
    pub fn make() -> Apps
        ensures { result ≡ replicate 16 None }
    {
        Apps {
            names: [
                None, None, None, None, None, None, None, None, None, None, None, None, None, None,
                None, None,
            ],
        }
    }

    /// The same applications under the same names. It takes no memory.
    pub fn duplicate(&self) -> Apps
        ensures { result ≡ self.now }
    {
        let mut names = no_names();
        copy_names(&mut names, &self.names);
        Apps { names }
    }

    /// Starts an application under a name: `ERR_APP_RUNNING` if it runs already, `ERR_INVALID_NAME` if that is no name or has a dot, since
    /// the first dot of a full name ends the application's name.
    pub fn start(&mut self, app: u8, name: &Name20) -> Status
        requires from { 1 ≤ app }
        requires to { app ≤ 16 }
        ensures effect { (s : State) → s.apps ≡ self.old → start_effect s app name.now ≡ record (answered s result 0) { next = record s { apps = self.new } } }
    {
        if self.name(app).is_some() {
            return Status::ERR_APP_RUNNING;
        }
        if !name.is_name() || has_dot(name.bytes()) {
            return Status::ERR_INVALID_NAME;
        }
        self.names[app as usize - 1] = Some(name.copy());
        Status::SUCCESS
    }

    /// An application doesn't run any more, under whatever name it ran.
    pub fn end(&mut self, app: u8)
        ensures { self.new ≡ slice_set self.old (app - 1) None }
    {
        free(&mut self.names, (app as usize).saturating_sub(1));
    }

    /// The name under which an application runs.
    pub fn name(&self, app: u8) -> Option<&Name20>
        ensures name { option_copied result ≡ app_name self.now app }
        ensures none { IsNone result ↔ (app_name self.now app ≡ None) }
        ensures named { IfSome result (λ name. is_name name.now ≡ true) }
    {
        self.names.get((app as usize).saturating_sub(1))?.as_ref()
    }
}

/// The full name of an application's table or block: application, dot, short name.
pub fn plan_name(apps: &Apps, app: u8, short: &Name16) -> Option<Name40>
    ensures name { result ≡ option_map (λ name. full_name name short.now) (app_name apps.now app) }
    ensures within { IfSome result (λ name. length name ≤ 37) }

    // If the short name is a name, the full one is.
    ensures named { is_name short.now ≡ true → IfSome result (λ name. is_name name ≡ true) }
{
    Some(full_name(apps.name(app)?, short))
}
