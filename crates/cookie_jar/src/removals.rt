//! The steps that remove the cookies which go, and the step that puts the new one.
ghost use Rattle.std.specs.Prelude.{◌≡◌, ◌==◌, ◌++◌, ◌≤◌, [], ◌∷◌, IfOk, length, map, take};
ghost use Rattle.std.specs.List.{count_by, list_any, remove};
ghost use Rattle.cookie_jar.specs.Flags as flagged;
ghost use Rattle.cookie_jar.specs.Lifetime.{is_persistent};
ghost use Rattle.cookie_jar.specs.Performed.{after_removals};
ghost use Rattle.cookie_jar.specs.Steps as spec;
ghost use Rattle.cookie_jar.specs.Plain.{plain_cookie};

use crate::cookie::{Cookie, cookie_at};
use crate::step::JarStep;
use std::alloc::{AllocError, Global};

/// The steps of storing a cookie at a place, where the cookies of these places go.
pub fn live_steps(
    alloc: Global,
    cookies: &[Cookie],
    gone: &[usize],
    place: usize,
) -> Result<Vec<JarStep>, AllocError>
    ensures { IfOk result (λ v. v.items
        ≡ spec.removals (map plain_cookie cookies.now) [] gone.now
        ++ spec.put_step (spec.place_now gone.now place)
        (after_removals (map plain_cookie cookies.now)
        (spec.removals (map plain_cookie cookies.now) [] gone.now)) ∷ []) }
{
    if gone.is_empty() {
        return put_alone(alloc, cookies, place);
    }
    let (mut steps, flags) = removals(alloc, cookies, gone)?;
    steps.push(put_step(&flags, place_now(gone, place)))?;
    Ok(steps)
}

// The step that puts the new cookie, where none goes.
fn put_alone(alloc: Global, cookies: &[Cookie], place: usize) -> Result<Vec<JarStep>, AllocError>
    ensures { IfOk result (λ v. v.items
        ≡ spec.put_step place (map plain_cookie cookies.now) ∷ []) }
{
    let rank = persistent_before(cookies, place);
    let step = match cookie_at(cookies, place) {
        Some(old) => JarStep::Replace {
            place,
            rank,
            was_persistent: lasts(old),
        },
        None => JarStep::Insert { place, rank },
    };
    Vec::from_slice(alloc, &[step])
}

// The number of persistent cookies before a place.
fn persistent_before(cookies: &[Cookie], place: usize) -> usize
    ensures { result ≡ spec.rank place (map plain_cookie cookies.now) }
{
    count_persistent(&cookies[..place.min(cookies.len())])
}

fn count_persistent(cookies: &[Cookie]) -> usize
    ensures { result ≡ count_by (λ c. is_persistent (plain_cookie c)) cookies.now }
{
    cookies.iter().filter(|c| lasts(c)).count()
}

fn lasts(cookie: &Cookie) -> bool
    ensures { result ≡ is_persistent (plain_cookie cookie.now) }
{
    cookie.expiry.is_some()
}

/// The removal of the cookie at a place alone, if one is there.
pub fn removal_alone(
    alloc: Global,
    cookies: &[Cookie],
    place: usize,
) -> Result<Vec<JarStep>, AllocError>
    ensures { IfOk result (λ v. v.items
        ≡ spec.removal_at place (map plain_cookie cookies.now)) }
{
    match cookie_at(cookies, place) {
        None => Ok(Vec::new(alloc)),
        Some(old) => Vec::from_slice(
            alloc,
            &[JarStep::Remove {
                place,
                rank: persistent_before(cookies, place),
                was_persistent: lasts(old),
            }],
        ),
    }
}

fn place_now(gone: &[usize], place: usize) -> usize
    ensures { result ≡ spec.place_now gone.now place }
{
    (0..place).filter(|q| !is_among(gone, *q)).count()
}

fn is_among(gone: &[usize], place: usize) -> bool
    ensures { result ≡ list_any (λ g. g == place) gone.now }
{
    gone.iter().any(|g| *g == place)
}

// The place after the first of these have gone.
fn place_after(gone: &[usize], done: usize, place: usize) -> usize
    requires { done ≤ length gone.now }
    ensures { result ≡ spec.place_now (take done gone.now) place }
{
    place_now(&gone[..done], place)
}

fn rank(flags: &[bool], place: usize) -> usize
    ensures { result ≡ flagged.flag_rank place flags.now }
{
    flags.iter().take(place).filter(|b| **b).count()
}

fn is_set(flags: &[bool], place: usize) -> bool
    ensures { result ≡ flagged.flag_at place flags.now }
{
    flags.iter().skip(place).take(1).any(|b| *b)
}

fn remove_step(flags: &[bool], place: usize) -> JarStep
    ensures { result ≡ flagged.flag_removal place flags.now }
{
    JarStep::Remove {
        place,
        rank: rank(flags, place),
        was_persistent: is_set(flags, place),
    }
}

fn put_step(flags: &[bool], place: usize) -> JarStep
    ensures { result ≡ flagged.flag_put place flags.now }
{
    if place < flags.len() {
        JarStep::Replace {
            place,
            rank: rank(flags, place),
            was_persistent: is_set(flags, place),
        }
    } else {
        JarStep::Insert {
            place,
            rank: rank(flags, place),
        }
    }
}

fn drop_flag(flags: &mut Vec<bool>, place: usize)
    ensures { flags.new.items ≡ remove flags.old.items place }
{
    if place < flags.len() {
        flags.remove(place);
    }
}

fn persistent_flags(alloc: Global, cookies: &[Cookie]) -> Result<Vec<bool>, AllocError>
    ensures { IfOk result (λ v. v.items
        ≡ map (λ c. is_persistent (plain_cookie c)) cookies.now) }
{
    cookies.iter().map(|c| c.expiry.is_some()).collect(alloc)
}

// The removals of these places, each counted at its own step, and which of those that stay are
// persistent.
fn removals(
    alloc: Global,
    cookies: &[Cookie],
    gone: &[usize],
) -> Result<(Vec<JarStep>, Vec<bool>), AllocError>
    ensures steps { IfOk result (λ v. v.0.items
        ≡ spec.removals (map plain_cookie cookies.now) [] gone.now) }
    ensures flags { IfOk result (λ v. v.1.items
        ≡ map is_persistent (after_removals (map plain_cookie cookies.now)
        (spec.removals (map plain_cookie cookies.now) [] gone.now))) }
{
    let mut flags = persistent_flags(alloc, cookies)?;
    let mut steps = Vec::new(alloc);
    for (done, p) in gone.iter().enumerate() {
        let place = place_after(gone, done, *p);
        steps.push(remove_step(&flags, place))?;
        drop_flag(&mut flags, place);
    }
    Ok((steps, flags))
}
