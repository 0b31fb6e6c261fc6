// What is made while another value is held. Generic, so that what is dropped where nothing is made is one value to the prover, and not each variant of a tree.

ghost use Rattle.std.specs.Prelude.{◌≡◌, Ok, Err, MatchResult};

/// What was made, and the value that was held.
pub fn keeping<T: Drop, U, E>(made: Result<U, E>, held: T) -> Result<(U, T), E>
    ensures { MatchResult result (λ r. (made ≡ Ok r.0) × (r.1 ≡ held)) (λ x. made ≡ Err x) }
{
    match made {
        Ok(made) => Ok((made, held)),
        Err(error) => Err(error),
    }
}
