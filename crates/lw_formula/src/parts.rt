/// What a signed formula comes to by its main connective, after Smullyan's uniform notation, with Fitting's ν and π
/// for the modal ones. A side of one or two components is written as the first and perhaps a second.
#[derive(Clone, Copy, Debug, PartialEq, Eq)]
pub enum Parts<T> {
    /// A variable, `true` or `false` under either sign: there are no components.
    Nothing,
    /// All of these components hold where the formula does.
    One(T, Option<T>),
    /// All of the first side or all of the second holds where the formula does.
    Two((T, Option<T>), (T, Option<T>)),
    /// The component holds at every world that is seen.
    Nu(T),
    /// The component holds at some world that is seen.
    Pi(T),
}
