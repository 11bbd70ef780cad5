// Field after field into the lent table.
ghost use Rattle.annotation.specs.Numbered.{kind_number};
ghost use Rattle.table.specs.Lent.{lanes_in, Kept};
ghost use Rattle.book.specs.Inner.{Fresh, FieldsRead};

use crate::content::content_at;
use field::Reader;
use table::{Full, Row, Table};
use term::{Refusal, Refused};

// Every field from `start` on, in order, into a table that has no rows yet, until one is refused.
pub fn read_fields(table: &mut Table, book: &[u8], start: usize) -> Result<(), Refused>
    requires { Fresh (kind_number table.old.kind) (lanes_in table.old) }
    ensures kept { Kept table.old table.new }
    ensures read { FieldsRead (kind_number table.old.kind) book.now start (lanes_in table.old) (lanes_in table.new) table.new.count result }
{
    table.count = 0;
    let mut reader = Reader::stand(book, start);
    while reader.at < reader.src.len() {
        let field = content_at(table.kind, reader.src, reader.at, reader.field())?;
        // Term by term: the row as it lies in what was answered is copied in pieces that a load of a term has to wait for.
        let Row { s, p, o, a } = field.row;
        match table.put_row(Row { s, p, o, a }) {
            Ok(_) => {}
            Err(Full) => return Err(Refusal::NoRoom.at(reader.at)),
        }
        reader = reader.moved(field.next);
    }
    Ok(())
}
