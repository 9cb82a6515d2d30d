//! What a kind of tables gives: its operations, and what its workers keep in memory.

/// A kind of tables on an array that threads share. It says what distinguishes it from others;
/// `LiveTable` is the rest.
pub trait Table: Drop {
    ghost use Rattle.std.specs.Prelude.{◌≡◌, ◌≤◌, ◌<◌, ◌^◌, ◌++◌, ◌∷◌, ℕ, List, [], length};
    ghost use Rattle.block_store.specs.declared.Config.{Config};
    ghost use Rattle.block_store.specs.declared.Width.TheVariants.{Eight};
    ghost use Rattle.live_tables.specs.rows.Lawful.{Lawful};
    ghost use Rattle.live_tables.specs.rows.Life.{MakeObjects};
    ghost use Rattle.live_tables.specs.rows.Rows.{Rows, commands_of};
    ghost use Rattle.live_tables.specs.rows.Workers.{RowWorkerState};

    /// An operation and its answer, as contracts see them.
    type Operation;

    type Answer;

    /// What a worker is asked to do.
    type Request: Copy;

    /// What a worker keeps in memory of the operations that it did.
    type Own: Copy;

    ghost Row: { Type 0 };

    ghost Plain: { Type 0 };

    /// The operations, the commands that they are made of, and the plain table.
    ghost rows: { Rows Self.Operation Row Self.Answer Plain };

    /// The operation that a worker is asked for.
    ghost operation_of: { RowWorkerState Self.Operation Self.Answer → Self.Request
        → Self.Operation };

    /// What holds of each heap that is opened.
    ghost HasShape: { Config → Type 0 };

    /// What a worker of a thread keeps that has done these operations.
    ghost Keeps: { Config → ℕ → List Self.Operation → Self.Own → Type 0 };

    /// What a worker keeps that has done nothing.
    fn start() -> Self::Own
        ensures { (c : Config) (t : ℕ) → HasShape c → t < c.threads → Keeps c t [] result };

    /// How many objects the commands of a request make.
    fn objects_in(request: &Self::Request) -> u64
        ensures few { result ≤ 2 }
        ensures make { (w : RowWorkerState Self.Operation Self.Answer)
            → MakeObjects Eight result (commands_of rows (operation_of w request.now ∷ [])) };

    /// What a worker keeps after a request, if it kept this before.
    fn next(own: Self::Own, request: &Self::Request) -> Self::Own
        requires { (w : RowWorkerState Self.Operation Self.Answer) × (c : Config) × (t : ℕ)
            × Keeps c t w.done own × (length (commands_of rows w.done) ≤ 2 ^ 60)
            × rows.CanBeNext c.shared t w.done (operation_of w request.now) }
        ensures { (w : RowWorkerState Self.Operation Self.Answer) (c : Config) (t : ℕ)
            → Keeps c t w.done own → rows.CanBeNext c.shared t w.done (operation_of w request.now)
            → Keeps c t (w.done ++ operation_of w request.now ∷ []) result };

    /// The rows are lawful.
    fn is_lawful()
        ensures { Lawful rows };
}
