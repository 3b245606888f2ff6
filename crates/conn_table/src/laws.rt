//! Theorems about the definitions of this crate. Each function does nothing, or names a theorem that it needs: its contract is the theorem.
ghost use Rattle.conn_table.specs.IndexedConnections.{IndexedConnectionsAgree};
ghost use Rattle.conn_table.specs.Partials.{JoinsAgree};
ghost use Rattle.conn_table.specs.Tables.{TablesAgree};
ghost use Rattle.conn_table.specs.TableFacts.{PayloadsArePlaced, ConnsAreSound, MembersHaveSides};

use frame_headers::laws::payloads_are_in_place;

/// Indexed connections without the numbers of their segments' records are the connections.
pub fn indexed_connections_agree()
    ensures { IndexedConnectionsAgree }
{}

/// The join of the partials of two adjacent ranges is the partial of both, so every cut of the records gives the same table.
/// Ranges may be empty, and a border may separate an opening from its repeat or from its segments.
pub fn joins_agree()
    ensures { JoinsAgree }
{}

/// The table of a range's partial has the connections that filtering its segments gives, as many unopened segments and the same counts.
pub fn tables_agree()
    ensures { TablesAgree }
{}

/// The payload of each segment lies in the file where its member says, and the bytes there are its payload.
pub fn payloads_are_placed()
    ensures { PayloadsArePlaced }
{
    payloads_are_in_place();
}

/// In every table the members of a connection stand in the order of the file, its beginning first, and their payloads lie in the file.
pub fn conns_are_sound()
    ensures { ConnsAreSound }
{
    payloads_are_in_place();
}

/// Each segment of a connection comes from its client or from its server, and never from both.
pub fn members_have_sides()
    ensures { MembersHaveSides }
{}
