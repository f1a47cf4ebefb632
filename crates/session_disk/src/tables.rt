//! The tables of a session.

ghost use Rattle.std.specs.Prelude.{◌≡◌, map};
ghost use Rattle.sqlite_store.specs.Catalog.{wanted_of};
ghost use Rattle.session_disk.specs.Tables.{session_schema, table_of};

use sqlite_trees::schema::Object;
use sqlite_trees::store::Shape;
use sqlite_value::keys::Order;

/// The text of the table of the storage.
const STORAGE_SQL: &str =
    "CREATE TABLE storage (key BLOB PRIMARY KEY, value BLOB NOT NULL) STRICT, WITHOUT ROWID";

/// The text of the table of the programs.
const PROGRAM_SQL: &str =
    "CREATE TABLE program (name BLOB PRIMARY KEY, file BLOB NOT NULL) STRICT, WITHOUT ROWID";

/// The text of the table of the settings, the height and the digest.
const SESSION_SQL: &str =
    "CREATE TABLE session (id INTEGER PRIMARY KEY, version INTEGER NOT NULL, frame_limit INTEGER NOT NULL, frame_gas INTEGER, brief INTEGER NOT NULL, rules INTEGER NOT NULL, height INTEGER NOT NULL, digest BLOB NOT NULL) STRICT";

/// The text of the table of the last answer.
const ANSWER_SQL: &str =
    "CREATE TABLE answer (id INTEGER PRIMARY KEY, line BLOB NOT NULL, bytes BLOB NOT NULL) STRICT";

/// A table by its shape, its name and its text.
fn table<'a>(shape: Shape, name: &'a str, sql: &'a str) -> Object<'a>
    ensures { wanted_of result ≡ table_of shape name.now sql.now }
{
    Object {
        shape,
        kind: "table",
        name,
        table: name,
        reals: 0,
        sql: Some(sql),
    }
}

/// The four tables, by the numbers of their trees.
pub(crate) fn tables() -> [Object<'static>; 4]
    ensures { map wanted_of result ≡ session_schema }
{
    [
        table(Shape::Index(Order::PLAIN), "storage", STORAGE_SQL),
        table(Shape::Index(Order::PLAIN), "program", PROGRAM_SQL),
        table(Shape::Table, "session", SESSION_SQL),
        table(Shape::Table, "answer", ANSWER_SQL),
    ]
}
